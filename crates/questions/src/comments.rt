// Comments of one whole file, asked for by number: the file's own refusal first, then 13 with line 0.
ghost use Rattle.std.specs.Prelude.{◌≡◌, min, length};
ghost use Rattle.laws.specs.Places.{byte_of};
ghost use Rattle.lines.specs.Lines.{lines_of};
ghost use Rattle.header.specs.Versions.{rules_in};
ghost use Rattle.reader.specs.Reading.{file_of};
ghost use Rattle.questions.specs.Questions.{text_in, no_comment, comment_at, comment_answer, comment_words};

use crate::types::CommentAnswer;
use header::Rules;
use record::kind::COMMENT_KIND;

// The text of a comment's line: from column 4 on, without trailing blanks. It lies at column 4, or at the line's end where the line is shorter.
fn text_of(line: &[u8]) -> &[u8]
    ensures result { result.now ≡ text_in line.now }
    ensures lies { result.ref_ptr ≡ byte_of line.entry (min 3 (length line.now)) }
{
    if line.len() < 3 {
        return file::nothing_at(line, line.len());
    }
    let words = &line[3..];
    let n = layout::trimmed_length(words);
    &words[0..n]
}

// A refusal beside no comment.
fn no_comment(number: usize, line: u64, column: usize) -> CommentAnswer
    ensures { result ≡ no_comment number line column }
{
    CommentAnswer {
        refusal: number,
        line,
        column,
        at: 0,
        length: 0,
    }
}

// Where the text of the k-th comment of some lines lies.
fn comment_at(rules: Rules, bytes: &[u8], k: u64) -> CommentAnswer
    ensures { result ≡ comment_at rules (lines_of bytes.now) k }
{
    let place = file::line_begins(rules, bytes, COMMENT_KIND, k);
    let line = file::line_of(rules, bytes, COMMENT_KIND, k);
    let indent = line.len().min(3);
    let text = text_of(line);
    CommentAnswer {
        refusal: 0,
        line: 0,
        column: 0,
        at: place + indent,
        length: text.len(),
    }
}

// Where the text of the k-th comment of a file lies, counted from 0: 13 where it has no such comment.
pub fn comment_answer(file: &[u8], k: u64) -> CommentAnswer
    ensures result { result ≡ comment_answer (rules_in file.now) file.now (file_of (rules_in file.now) file.now) k }
{
    let rules = Rules::told_by(file);
    match scan::scan_whole(rules, file) {
        Err(refusal) => no_comment(refusal.number, refusal.line, refusal.column),
        Ok(tally) => {
            if k < tally.comments {
                let end = tally.end;
                return comment_at(rules, &file[0..end], k);
            }
            no_comment(13, 0, 0)
        }
    }
}

// The text of the k-th comment of a file, that stretch of it: it lies where `comment_answer` says. Empty, at the file's first byte, on a refusal.
pub fn comment(file: &[u8], k: u64) -> &[u8]
    ensures result { result.now ≡ comment_words (rules_in file.now) file.now (file_of (rules_in file.now) file.now) k }
    ensures lies { result.ref_ptr ≡ byte_of file.entry (comment_answer (rules_in file.now) file.now (file_of (rules_in file.now) file.now) k).at }
{
    let rules = Rules::told_by(file);
    match scan::scan_whole(rules, file) {
        Err(_) => file::nothing_at(file, 0),
        Ok(tally) => {
            if k < tally.comments {
                let end = tally.end;
                return text_of(file::line_of(rules, &file[0..end], COMMENT_KIND, k));
            }
            file::nothing_at(file, 0)
        }
    }
}
