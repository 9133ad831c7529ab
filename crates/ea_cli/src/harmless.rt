//! Texts of a user as a terminal may be shown them.
use std::io::IsTerminal;

/// Whether a character may move a terminal's cursor, change its state or turn the order of what it shows.
fn is_harmful(character: char) -> bool {
    match character {
        '\0'..='\x1f' | '\x7f'..='\u{9f}' => true,
        '\u{61c}' | '\u{200e}' | '\u{200f}' => true,
        '\u{202a}'..='\u{202e}' | '\u{2066}'..='\u{2069}' => true,
        _ => false,
    }
}

/// A text with `?` in place of what may do harm; line feeds that belong to the text stay.
fn replaced(rt: &HostRuntime, text: &str, keeps_lines: bool) -> Option<String> {
    let mut shown = String::new(rt.alloc());
    for character in text.chars() {
        let is_kept = keeps_lines && character == '\n' || !is_harmful(character);
        shown.push(if is_kept { character } else { '?' }).ok()?;
    }
    Some(shown)
}

/// A name, an option's value or a word as standard error shows it: as it is, unless that is a terminal. None if memory was refused.
pub(crate) fn shown_word(rt: &HostRuntime, text: &str) -> Option<String> {
    if rt.stderr().is_terminal() {
        replaced(rt, text, false)
    } else {
        String::from_str(rt.alloc(), text).ok()
    }
}

/// The same of a text of several lines; none also if it is shown as it is.
pub(crate) fn shown_lines(rt: &HostRuntime, text: &str) -> Option<String> {
    if rt.stderr().is_terminal() {
        replaced(rt, text, true)
    } else {
        None
    }
}
