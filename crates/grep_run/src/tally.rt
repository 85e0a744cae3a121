use gcl_model::{Bytes, Expr};
use std::alloc::{AllocError, Global};
use std::sync::atomic::{AtomicU64, Ordering};
use text_search::QueryText;

/// A word, a tag or a prefix that a query names, and how many places it has in the searched files.
#[derive(Drop)]
pub struct TermTally {
    token: Bytes,
    places: AtomicU64,
}

impl TermTally {
    /// The token. For a prefix it ends with `*`.
    pub fn token(&self) -> &[u8] {
        self.token.as_slice()
    }

    /// How many places there are; for a prefix, how many files have a word that begins with it.
    pub fn places(&self) -> u64 {
        self.places.load(Ordering::SeqCst)
    }

    /// Adds the places of one file.
    fn add(&self, text: &QueryText<'_>) {
        let token = self.token.as_slice();
        let count = match token {
            [prefix @ .., b'*'] => text.has_word_from(prefix) as u64,
            _ => text.places(token).len() as u64,
        };
        let _ = self.places.fetch_add(count, Ordering::SeqCst);
    }
}

/// An element that a query asks for, such as `"<p>".."</p>"`, and how many of its opening tags and of such elements the searched files
/// have.
#[derive(Drop)]
pub struct ElementTally {
    open: Bytes,
    close: Bytes,
    opens: AtomicU64,
    elements: AtomicU64,
}

impl ElementTally {
    /// The opening tag, such as `<p>`.
    pub fn open(&self) -> &[u8] {
        self.open.as_slice()
    }

    /// The closing tag, such as `</p>`.
    pub fn close(&self) -> &[u8] {
        self.close.as_slice()
    }

    /// How many opening tags there are.
    pub fn opens(&self) -> u64 {
        self.opens.load(Ordering::SeqCst)
    }

    /// How many opening tags are closed before the next one opens: the query has that many answers.
    pub fn elements(&self) -> u64 {
        self.elements.load(Ordering::SeqCst)
    }

    /// Adds what one file has.
    fn add(&self, text: &QueryText<'_>) {
        let opens = text.places(self.open.as_slice());
        let closes = text.places(self.close.as_slice());
        let _ = self.opens.fetch_add(opens.len() as u64, Ordering::SeqCst);
        let _ = self
            .elements
            .fetch_add(closed_count(opens, closes), Ordering::SeqCst);
    }
}

/// The places that are at or after `place`. `places` is rising.
fn from_place(places: &[u32], place: u32) -> &[u32] {
    let before = places.iter().take_while(|other| **other < place).count();
    &places[before..]
}

/// How many openings have a closing before the next opening. It passes over both lists once.
fn closed_count(opens: &[u32], closes: &[u32]) -> u64 {
    let mut count = 0u64;
    let mut left = closes;
    for (i, open) in opens.iter().enumerate() {
        left = from_place(left, *open);
        let closed = match (left.first(), opens.get(i + 1)) {
            (Some(close), Some(next)) => *close < *next,
            (Some(_), None) => true,
            (None, _) => false,
        };
        count = count.saturating_add(closed as u64);
    }
    count
}

/// What the searched files have of the words, tags and elements that a query names. Threads add to it concurrently. It is for messages, and
/// no clause mentions its numbers.
#[derive(Drop)]
pub struct Tally {
    terms: Vec<TermTally>,
    elements: Vec<ElementTally>,
}

impl Tally {
    /// The words, tags and elements of a query, before any file is searched. Err means out of memory.
    pub(crate) fn of(alloc: Global, expr: &Expr) -> Result<Self, AllocError> {
        let mut tally = Tally {
            terms: Vec::new(alloc),
            elements: Vec::new(alloc),
        };
        put_expr(alloc, expr, &mut tally)?;
        Ok(tally)
    }

    /// The words, tags and prefixes, each once.
    pub fn terms(&self) -> &[TermTally] {
        self.terms.as_slice()
    }

    /// The elements, each once.
    pub fn elements(&self) -> &[ElementTally] {
        self.elements.as_slice()
    }

    /// Adds what one file has.
    pub(crate) fn add(&self, text: &QueryText<'_>) {
        for term in &self.terms {
            term.add(text);
        }
        for element in &self.elements {
            element.add(text);
        }
    }

    /// Adds a token, if it is not there yet.
    fn put_term(&mut self, alloc: Global, token: &[u8]) -> Result<(), AllocError> {
        if self.terms.iter().any(|term| term.token.as_slice() == token) {
            return Ok(());
        }
        let token = Bytes::copy_of(alloc, token)?;
        self.terms.push(TermTally {
            token,
            places: AtomicU64::new(0),
        })?;
        Ok(())
    }

    /// Adds each of these tokens.
    fn put_terms(&mut self, alloc: Global, tokens: &[Bytes]) -> Result<(), AllocError> {
        for token in tokens {
            self.put_term(alloc, token.as_slice())?;
        }
        Ok(())
    }

    /// Adds the element that a chain asks for, if it asks for one that is not there yet.
    fn put_element(&mut self, alloc: Global, operands: &[Expr]) -> Result<(), AllocError> {
        let [Expr::Term(open), Expr::Term(close)] = operands else {
            return Ok(());
        };
        let there = self
            .elements
            .iter()
            .any(|element| element.open.as_slice() == open.as_slice());
        if there || !is_element(open.as_slice(), close.as_slice()) {
            return Ok(());
        }
        let open = open.copy()?;
        let close = close.copy()?;
        self.elements.push(ElementTally {
            open,
            close,
            opens: AtomicU64::new(0),
            elements: AtomicU64::new(0),
        })?;
        Ok(())
    }
}

/// Whether these are an opening tag and the closing tag of its name.
fn is_element(open: &[u8], close: &[u8]) -> bool {
    match (open, close) {
        ([b'<', name @ ..], [b'<', b'/', other @ ..]) => name == other,
        _ => false,
    }
}

/// Adds what an expression names.
#[cycle(put)]
fn put_expr(alloc: Global, expr: &Expr, tally: &mut Tally) -> Result<(), AllocError> {
    match expr {
        Expr::Term(token) => tally.put_term(alloc, token.as_slice()),
        Expr::Phrase(tokens) => tally.put_terms(alloc, tokens.as_slice()),
        Expr::Width(_) => Ok(()),
        Expr::Both(operands) => put_each(alloc, operands, tally),
        Expr::One(operands) => put_each(alloc, operands, tally),
        Expr::Seq(operands) => {
            tally.put_element(alloc, operands)?;
            put_each(alloc, operands, tally)
        }
        Expr::Containing(first, second)
        | Expr::ContainedIn(first, second)
        | Expr::NotContaining(first, second)
        | Expr::NotContainedIn(first, second) => {
            put_expr(alloc, first, tally)?;
            put_expr(alloc, second, tally)
        }
    }
}

/// Adds what each operand names.
#[cycle(put)]
fn put_each(alloc: Global, operands: &[Expr], tally: &mut Tally) -> Result<(), AllocError> {
    for operand in operands {
        put_expr(alloc, operand, tally)?;
    }
    Ok(())
}
