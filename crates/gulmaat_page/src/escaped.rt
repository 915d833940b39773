//! Texts as HTML has them.

use crate::writer::Writer;

/// Writes a letter so that it isn't markup.
fn push_letter(html: &mut Writer, letter: char) {
    match letter {
        '&' => html.push("&amp;"),
        '<' => html.push("&lt;"),
        '>' => html.push("&gt;"),
        '"' => html.push("&quot;"),
        '\'' => html.push("&#39;"),
        _ => html.push_char(letter),
    }
}

/// Writes a text of which nothing is markup.
pub fn push_escaped(html: &mut Writer, text: &str) {
    for letter in text.chars() {
        push_letter(html, letter);
    }
}

/// How many characters of a text are shown where there isn't room for all.
const SHORT: usize = 200;

/// Writes the beginning of a text of which nothing is markup, and three dots where that isn't all.
pub fn push_short(html: &mut Writer, text: &str) {
    let mut left = SHORT;
    for letter in text.chars() {
        if left == 0 {
            html.push("…");
            return;
        }
        left = left.saturating_sub(1);
        push_letter(html, letter);
    }
}

/// Writes a cell of a table with the beginning of a text in it.
pub fn push_cell(html: &mut Writer, text: &str) {
    html.push("<td>");
    push_short(html, text);
    html.push("</td>");
}
