//! What is around a page's contents. The page may fetch nothing, and run nothing but its own script.

use crate::writer::Writer;
use base64::engine::general_purpose::STANDARD;
use sha2::{Digest, Sha256};
use std::alloc::Global;

/// Writes what a policy says of a text that the page has in it.
fn push_source(html: &mut Writer, alloc: Global, text: &str) {
    let digest = Sha256::digest(text.as_bytes());
    match STANDARD.encode(alloc, digest.as_slice()) {
        Ok(digits) => {
            html.push("'sha256-");
            html.push(digits.as_str());
            html.push("'");
        }
        Err(_) => html.cut(),
    }
}

/// Writes the policy: what the page may run is this script and this style alone.
fn push_policy(html: &mut Writer, alloc: Global, script: &str, style: &str) {
    html.push(
        "<meta http-equiv=\"Content-Security-Policy\" content=\"default-src 'none'; script-src ",
    );
    push_source(html, alloc, script);
    html.push("; style-src ");
    push_source(html, alloc, style);
    html.push("; base-uri 'none'; form-action 'none'\">\n");
}

/// The beginning of a page, up to its contents.
pub fn push_head(html: &mut Writer, alloc: Global, script: &str, style: &str) {
    html.push("<!DOCTYPE html>\n<html lang=\"en\">\n<head>\n<meta charset=\"utf-8\">\n");
    push_policy(html, alloc, script, style);
    html.push(
        "<meta name=\"viewport\" content=\"width=device-width, initial-scale=1\">\n\
         <meta name=\"color-scheme\" content=\"light dark\">\n\
         <title>Gulmaat: a build</title>\n<style>",
    );
    html.push(style);
    html.push("</style>\n</head>\n<body>\n");
}

/// The end of a page, with its script.
pub fn push_end(html: &mut Writer, script: &str) {
    html.push("<script>");
    html.push(script);
    html.push("</script>\n</body>\n</html>\n");
}
