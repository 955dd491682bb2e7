// Texts of programs, and the listings in them.

// Whether a line is for the reader of texts: that of the tags, of the start or of the words.
fn is_heading(line: &str) -> bool {
    line.starts_with("tags ") || line.starts_with("start ") || line.starts_with("words")
}

/// The listing in a text, which stands behind its headings.
pub(crate) fn listing_in(text: &str) -> &[u8] {
    let mut at: usize = 0;
    for line in text.split('\n') {
        if !is_heading(line) {
            break;
        }
        at = at.saturating_add(line.len()).saturating_add(1);
    }
    text.as_bytes().get(at..).unwrap_or(b"")
}
