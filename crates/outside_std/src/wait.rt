use std::rt::Clock;
use std::thread::sleep;
use std::time::Duration;

/// The greatest power of two of milliseconds that one nap takes.
const NAP_MOST: u32 = 5;

/// Sleeps before another try: a millisecond at first, and twice as long each time, up to 32.
pub fn nap<R: Clock>(clock: &R, turn: u64) {
    let power = u32::try_from(turn).unwrap_or(NAP_MOST).min(NAP_MOST);
    sleep(clock, Duration::from_millis(1 << power));
}
