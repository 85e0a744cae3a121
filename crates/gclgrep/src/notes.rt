use grep_run::{ElementTally, Tally, TermTally};

/// The name of a tag that has more than its name between `<` and `>`, such as `verse` for `<verse n='3'>`.
fn tag_with_more(text: &str) -> Option<&str> {
    let inside = text.strip_prefix('<')?.strip_suffix('>')?;
    if inside.contains('<') {
        return None;
    }
    let (name, more) = inside.split_once(' ')?;
    if name.is_empty() || more.trim_matches('/').is_empty() {
        return None;
    }
    Some(name)
}

/// Says what a text in quotes asks for, if people may mean something else.
fn tell_note<R: Eprint>(rt: &R, text: &str) {
    if let Some(word) = text.strip_suffix('*') {
        let _ = eprintln!(rt;
            "gclgrep: note: \"{text}\" asks for the word {word}; for words that begin so write \"{word}\"*"
        );
        return;
    }
    if let Some(name) = tag_with_more(text) {
        let _ = eprintln!(rt;
            "gclgrep: note: attributes are not looked at: \"{text}\" asks for <{name}>"
        );
        return;
    }
    if let Some((front, back)) = text.split_once("..") {
        if front.starts_with('<') && front.ends_with('>') && back.starts_with("</") {
            let _ = eprintln!(rt;
                "gclgrep: note: \"{text}\" is one phrase; write \"{front}\"..\"{back}\""
            );
        }
    }
}

/// Says what each text in quotes asks for, if people may mean something else. There is no contract.
pub fn tell_notes<R: Eprint>(rt: &R, query: &[u8]) {
    let Ok(query) = str::from_utf8(query) else {
        return;
    };
    for (place, text) in query.split('"').enumerate() {
        if place % 2 == 1 {
            tell_note(rt, text);
        }
    }
}

/// Says that no file has this word or tag.
fn tell_missing_term<R: Eprint>(rt: &R, term: &TermTally) {
    let Ok(token) = str::from_utf8(term.token()) else {
        return;
    };
    let _ = eprintln!(rt; "gclgrep: note: in no file: {token}");
}

/// Says which words and tags of the query no file has. There is no contract.
pub fn tell_missing<R: Eprint>(rt: &R, tally: &Tally) {
    for term in tally.terms() {
        if term.places() == 0 {
            tell_missing_term(rt, term);
        }
    }
}

/// Says how many of the openings hold no other opening of the same element: only those are found.
fn tell_nested_element<R: Eprint>(rt: &R, element: &ElementTally) {
    let (Ok(open), Ok(close)) = (
        str::from_utf8(element.open()),
        str::from_utf8(element.close()),
    ) else {
        return;
    };
    let opens = element.opens();
    let elements = element.elements();
    let _ = eprintln!(rt;
        "gclgrep: note: {opens} {open}, of which {elements} hold no other {open}: \"{open}\"..\"{close}\" finds these"
    );
}

/// Says which elements of the query have more openings in the files than answers. There is no contract.
pub fn tell_nested<R: Eprint>(rt: &R, tally: &Tally) {
    for element in tally.elements() {
        if 0 < element.elements() && element.elements() < element.opens() {
            tell_nested_element(rt, element);
        }
    }
}
