ghost use Rattle.std.specs.Prelude.{◌≡◌, ℕ, Bool, true, false};
ghost use Rattle.gcl_model.specs.Extents.{Extent};
ghost use Rattle.address_space.specs.Runs.{FileEntry};
ghost use Rattle.script_lang.specs.declared.refusals.Refusal.{Refusal};
ghost use Rattle.script_lang.specs.Answers.{file_line, gone_line, interval_line, total_line, record_line, merging_line, shards_line};
ghost use Rattle.script_lang.specs.Answers.{saved_line, opened_line, watch_line, unwatched_line, change_line, refusal_line, is_refusal};

/// Each refusal begins with an exclamation mark, and no other line of an answer does.
pub fn refusals_are_marked()
    ensures refusal { (refusal : Refusal) → is_refusal (refusal_line refusal) ≡ true }
    ensures file { (id first last : ℕ) → is_refusal (file_line id first last) ≡ false }
    ensures gone { (id : ℕ) → is_refusal (gone_line id) ≡ false }
    ensures interval { (interval : Extent) → is_refusal (interval_line interval) ≡ false }
    ensures total { (total : ℕ) → is_refusal (total_line total) ≡ false }
    ensures listed { (file : FileEntry) → is_refusal (record_line file) ≡ false }
    ensures merging { is_refusal merging_line ≡ false }
    ensures shards { (count : ℕ) → is_refusal (shards_line count) ≡ false }
    ensures saved { (bytes : ℕ) → is_refusal (saved_line bytes) ≡ false }
    ensures opened { (files : ℕ) → is_refusal (opened_line files) ≡ false }
    ensures watches { (number : ℕ) → (is_refusal (watch_line number) ≡ false) × (is_refusal (unwatched_line number) ≡ false) }
    ensures change { (number : ℕ) (came : Bool) (interval : Extent) → is_refusal (change_line number came interval) ≡ false }
{}
