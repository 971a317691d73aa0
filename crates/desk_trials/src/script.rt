//! Scripts in the lines of the standard input.

/// The script of a part: the lines between `part NAME` and the next `end`, or None if there is none.
pub fn part_of<'l>(lines: &'l [String], name: &str) -> Option<&'l [String]> {
    for (at, line) in lines.iter().enumerate() {
        if line.as_str().strip_prefix("part ") == Some(name) {
            let (_, after) = lines.split_at(at.saturating_add(1).min(lines.len()));
            return until_end(after);
        }
    }
    None
}

// The lines before the first `end`.
fn until_end(lines: &[String]) -> Option<&[String]> {
    for (at, line) in lines.iter().enumerate() {
        if line.as_str() == "end" {
            let (script, _) = lines.split_at(at.min(lines.len()));
            return Some(script);
        }
    }
    None
}

/// Whether a line says nothing: it is empty, or a comment.
pub fn is_silent(line: &str) -> bool {
    line.is_empty() || line.starts_with('#')
}
