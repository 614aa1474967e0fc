//! A text is split into the lines that make statements, and such a line into words.
ghost use Rattle.std.specs.Prelude.{◌≡◌, ◌≢◌, ◌+◌, ◌∷◌, ◌++◌, ◌<◌, ◌≤◌, drop, length, not, true, false, is_ok, IsTrue, OnOk, IfOk, IfErr};
ghost use Rattle.std.specs.List.{list_all, position, slice_split};
ghost use Rattle.smol_text.specs.Lines.{begins_comment, is_line_feed, most_bytes, raw_lines, separates, uncommented};
ghost use Rattle.smol_text.specs.Reading.{first_word, is_allowed, statements_of, TellsLines};
ghost use Rattle.smol_text.specs.Spans.{places_of_pieces, placed_at, lines_of, stated_lines};

use crate::line::{Line, Span, Words};
use crate::line_state::LineState;
use crate::text::Text;
use crate::text_fault::TextFault;
use std::alloc::Global;

/// The most lines that a text may have, up to the one that ends it.
const MOST_LINES: u32 = 65536;

/// Splits a text of at most 4 MiB into the lines that make statements, and each of them into words. A line
/// ends with a line feed or at the end of the text. What stands from the first `#` of a line on is a comment.
/// Tabs, carriage returns and spaces separate words. A line whose first word is `/*` opens a block comment,
/// which the next line closes whose first word is `*/`. A line whose first word is `end_file` ends the text.
/// The first fault met from the first line on is answered.
pub fn split_lines(alloc: Global, bytes: &[u8]) -> Result<Text, TextFault>
    requires { length bytes.now ≤ most_bytes }
    ensures bytes { IfOk result (λ text. text.bytes ≡ bytes.now) }
    ensures statements { IfOk result (λ text. statements_of bytes.now ≡ Ok (stated_lines text)) }
    ensures places { IfOk result (λ text. text.lines ≡ lines_of bytes.now) }
    ensures refused { IfErr result (λ fault. TellsLines fault (statements_of bytes.now)) }
{
    let lines = find_lines(alloc, bytes)?;
    let bytes = Vec::from_slice(alloc, bytes)?;
    Ok(Text::new(bytes, lines))
}

/// Every line of a text that makes a statement, with its number and the places of its words.
fn find_lines(alloc: Global, bytes: &[u8]) -> Result<Vec<Line>, TextFault>
    requires { length bytes.now ≤ most_bytes }
    ensures lines { IfOk result (λ lines. lines.items ≡ lines_of bytes.now) }
    ensures accepted { IfOk result (λ _. IsTrue (is_ok (statements_of bytes.now))) }
    ensures refused { IfErr result (λ fault. TellsLines fault (statements_of bytes.now)) }
{
    let mut lines = Vec::new(alloc);
    let mut standing = LineState::Open;
    let mut passed = 0;
    let mut at = 0;
    while at < bytes.len() && !standing.is_ended() {
        if passed == MOST_LINES {
            return Err(TextFault::TooManyLines);
        }
        passed += 1;
        let rest = &bytes[at..];
        let end = at + first_line_feed(rest).unwrap_or(rest.len());
        let line = &bytes[at..end];
        let next = standing.after(passed, first_word_of(line));
        if standing.is_open() && next.is_open() {
            keep_statement(alloc, &mut lines, passed, line, at)?;
        }
        standing = next;
        at = end + 1;
    }
    match standing {
        LineState::Commented { line } => Err(TextFault::OpenComment { line }),
        LineState::Open | LineState::Ended => Ok(lines),
    }
}

/// Puts the statement that a line makes behind the others, where the line has a word.
fn keep_statement(
    alloc: Global,
    lines: &mut Vec<Line>,
    number: u32,
    line: &[u8],
    at: usize,
) -> Result<(), TextFault>
    requires { at + length line.now ≤ most_bytes }
    ensures kept { OnOk result (lines.new.items ≡ lines.old.items ++ placed_at true number at line.now) }
    ensures allowed { OnOk result (list_all is_allowed (uncommented line.now) ≡ true) }
    ensures refused { IfErr result (λ fault. fault ≢ TextFault.OutOfMemory → fault ≡ TextFault.BadByte number) }
    ensures not_allowed { IfErr result (λ fault. fault ≢ TextFault.OutOfMemory → list_all is_allowed (uncommented line.now) ≡ false) }
{
    let part = before_comment(line);
    if !are_allowed(part) {
        return Err(TextFault::BadByte { line: number });
    }
    let words = find_words(alloc, part, at as u32)?;
    if !words.is_empty() {
        let part = Span {
            start: at as u32,
            end: (at + part.len()) as u32,
        };
        lines.push(Line {
            number,
            part,
            words,
        })?;
    }
    Ok(())
}

/// The first line of a text that isn't empty. The next line begins behind its line feed.
pub fn first_line(text: &[u8]) -> &[u8]
    requires { 0 < length text.now }
    ensures within { length result.now ≤ length text.now }
    ensures lines { raw_lines text.now ≡ result.now ∷ raw_lines (drop (length result.now + 1) text.now) }
{
    let end = first_line_feed(text).unwrap_or(text.len());
    &text[..end]
}

/// The part of a line before its comment.
pub fn before_comment(line: &[u8]) -> &[u8]
    ensures { result.now ≡ uncommented line.now }
{
    let end = first_hash(line).unwrap_or(line.len());
    &line[..end]
}

/// The first word of a line, and no bytes where it has none.
pub fn first_word_of(line: &[u8]) -> &[u8]
    ensures { result.now ≡ first_word line.now }
{
    let part = before_comment(line);
    let start = first_word_byte(part).unwrap_or(part.len());
    let word = &part[start..];
    let end = first_separator(word).unwrap_or(word.len());
    &word[..end]
}

/// The places of the words of the part of a line before its comment, where its first byte stands at `at`.
fn find_words(alloc: Global, part: &[u8], at: u32) -> Result<Words, TextFault>
    requires { at + length part.now ≤ most_bytes }
    ensures words { IfOk result (λ words. words ≡ places_of_pieces at (slice_split separates part.now)) }
    ensures memory { IfErr result (λ fault. fault ≡ TextFault.OutOfMemory) }
{
    let mut spans = Vec::new(alloc);
    let mut start = 0;
    while start < part.len() {
        let rest = &part[start..];
        let end = start + first_separator(rest).unwrap_or(rest.len());
        if start < end {
            spans.push(Span {
                start: at + start as u32,
                end: at + end as u32,
            })?;
        }
        start = end + 1;
    }
    Ok(Words::from(spans))
}

/// Where the first line feed stands.
fn first_line_feed(bytes: &[u8]) -> Option<usize>
    ensures { result ≡ position is_line_feed bytes.now }
{
    bytes.iter().position(|b| *b == b'\n')
}

/// Where the first `#` stands.
fn first_hash(bytes: &[u8]) -> Option<usize>
    ensures { result ≡ position begins_comment bytes.now }
{
    bytes.iter().position(|b| *b == b'#')
}

/// Where the first separator stands.
pub fn first_separator(bytes: &[u8]) -> Option<usize>
    ensures { result ≡ position separates bytes.now }
{
    bytes
        .iter()
        .position(|b| *b == b'\t' || *b == b'\r' || *b == b' ')
}

/// Where the first byte stands that separates no words.
pub fn first_word_byte(bytes: &[u8]) -> Option<usize>
    ensures { result ≡ position (λ b. not (separates b)) bytes.now }
{
    bytes
        .iter()
        .position(|b| *b != b'\t' && *b != b'\r' && *b != b' ')
}

/// Whether each byte may stand before the comment of a line that is read.
pub fn are_allowed(bytes: &[u8]) -> bool
    ensures { result ≡ list_all is_allowed bytes.now }
{
    bytes.iter().all(|b| *b == b'\t' || *b == b'\r' || (b' ' <= *b && *b <= b'~'))
}

#[cfg(test)]
mod tests {
    use super::*;
    use std::test::Fail;

    #[test]
    fn open_comment_is_told_by_its_first_line(rt: HostRuntime) -> Result<(), Fail> {
        let refused = split_lines(rt.alloc(), b"dim 3\nspecies A\n/*\nend_file\n").err();
        assert_eq!(rt; refused, Some(TextFault::OpenComment { line: 3 }));
        Ok(())
    }

    #[test]
    fn only_the_word_itself_opens_and_closes(rt: HostRuntime) -> Result<(), Fail> {
        let text = split_lines(rt.alloc(), b"/*x\n/*#y\n*/z\n*/ rest\n\n \"a b # c\" d")?;
        assert_eq!(rt; text.len(), 2);
        let first = text.line(0);
        assert_eq!(rt; first.number(), 1);
        assert_eq!(rt; first.len(), 1);
        assert_eq!(rt; first.word(0), b"/*x".as_slice());
        let last = text.line(1);
        assert_eq!(rt; last.number(), 6);
        assert_eq!(rt; last.part(), b" \"a b ".as_slice());
        assert_eq!(rt; last.len(), 2);
        assert_eq!(rt; last.word(0), b"\"a".as_slice());
        Ok(())
    }

    #[test]
    fn bytes_behind_the_end_are_not_seen(rt: HostRuntime) -> Result<(), Fail> {
        let text = split_lines(rt.alloc(), b"a \r\nend_file \0\n\0")?;
        assert_eq!(rt; text.len(), 1);
        assert_eq!(rt; text.line(0).len(), 1);
        let refused = split_lines(rt.alloc(), b"a\n\0 end_file").err();
        assert_eq!(rt; refused, Some(TextFault::BadByte { line: 2 }));
        Ok(())
    }

    #[test]
    fn lines_up_to_the_most_are_read(rt: HostRuntime) -> Result<(), Fail> {
        let mut bytes = vec![in rt.alloc(); b'\n'; 65536]?;
        let most = split_lines(rt.alloc(), &bytes)?;
        assert!(rt; most.is_empty());
        bytes.push(b'#')?;
        let refused = split_lines(rt.alloc(), &bytes).err();
        assert_eq!(rt; refused, Some(TextFault::TooManyLines));
        Ok(())
    }
}
