// What is said on standard error of what can't be opened, read or written.
use std::fmt::InlineText;
use std::io;

// What the system says of an error, without its number.
fn message(text: &str) -> &str {
    match text.rsplit_once(" (os error ") {
        Some((words, _)) => words,
        None => text,
    }
}

// Writes a line: what failed, as the caller names it, a colon and why. A line that can't be written is passed over.
pub fn fail(errors: &impl Print, what: &[u8], error: io::Error) {
    let text = InlineText::<256>::of(error);
    let _ = errors.write_all(what);
    let _ = errors.write_all(b": ");
    let _ = errors.write_all(message(text.as_str()).as_bytes());
    let _ = errors.write_all(b"\n");
}
