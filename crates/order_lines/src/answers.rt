// The lines that a sheet prints: order number, answer, total, waits, tickets, run; `-` absent.
ghost use Rattle.std.specs.Prelude.{◌+◌, ◌*◌, ◌<◌, ◌≤◌, length};
ghost use Rattle.put_text.specs.Puts.{Puts};
ghost use Rattle.order_lines.specs.Answers.{CanPutLine, answer_line, refused_by, refused_line, answer_fields, path_text, words_text, spaced};

use put_text::{put_byte, put_bytes, put_field, put_word};

// The answer of an order: its total and path, none, the number of a refusal, or that its search still waits. No `Result` of the search's:
// a line may bear any number, and a total without its moves.
#[derive(Clone, Copy)]
pub enum Answer {
    Solved(u32),
    Impossible,
    Refused(u32),
    Incomplete,
}

// What is said of an order.
#[derive(Clone, Copy)]
pub struct Line {
    pub order: usize,
    pub answer: Answer,
    pub waits: usize,
    pub tickets: usize,
}

// Puts an order's line at the start of the bytes lent, and answers how many bytes it has. The path is that of a solved order.
pub fn put_line(out: &mut [u8], line: Line, path: &[u32]) -> usize
    requires { CanPutLine out.old line path.now }
    ensures { Puts out.old 0 (answer_line line path.now) result out.new }
{
    let answer = line.answer;
    let a = put_field(out, 0, line.order);
    let b = put_answer(out, a, answer);
    let c = put_field(out, b, line.waits);
    let d = put_field(out, c, line.tickets);
    let e = put_run(out, d, answer, path);
    put_byte(out, e, b'\n')
}

// Puts the only line of a sheet that is refused, by its number, of which any may be put.
pub fn put_refused(out: &mut [u8], number: u32) -> usize
    requires { 19 ≤ length out.old }
    ensures { Puts out.old 0 (refused_line number) result out.new }
{
    let a = put_refused_by(out, 0, number);
    put_byte(out, a, b'\n')
}

// `refused` and a number.
fn put_refused_by(out: &mut [u8], at: usize, number: u32) -> usize
    requires { at + 18 ≤ length out.old }
    ensures { Puts out.old at (refused_by number) result out.new }
{
    let a = put_bytes(out, at, b"refused ");
    put_word(out, a, number)
}

// The fields of answer and total, each with its comma.
fn put_answer(out: &mut [u8], at: usize, answer: Answer) -> usize
    requires { at + 21 ≤ length out.old }
    ensures { Puts out.old at (answer_fields answer) result out.new }
{
    match answer {
        Answer::Solved(total) => {
            let a = put_bytes(out, at, b"solved,");
            put_field(out, a, total as usize)
        }
        Answer::Impossible => put_bytes(out, at, b"none,-,"),
        Answer::Refused(number) => {
            let a = put_refused_by(out, at, number);
            put_bytes(out, a, b",-,")
        }
        Answer::Incomplete => put_bytes(out, at, b"waiting,-,"),
    }
}

// The field of the path.
fn put_run(out: &mut [u8], at: usize, answer: Answer, path: &[u32]) -> usize
    requires { at + 11 * length path.now < length out.old }
    ensures { Puts out.old at (path_text answer path.now) result out.new }
{
    match answer {
        Answer::Solved(_) => put_words(out, at, path),
        _ => put_byte(out, at, b'-'),
    }
}

// Words parted by single spaces.
fn put_words(out: &mut [u8], at: usize, words: &[u32]) -> usize
    requires { at + 11 * length words.now ≤ length out.old }
    ensures { Puts out.old at (words_text words.now) result out.new }
{
    let mut end = at;
    for (i, word) in words.iter().enumerate() {
        end = put_spaced(out, end, i, *word);
    }
    end
}

// Word number i, with a space before it if it is not the first.
fn put_spaced(out: &mut [u8], at: usize, i: usize, word: u32) -> usize
    requires { at + 11 ≤ length out.old }
    ensures { Puts out.old at (spaced i word) result out.new }
{
    if i == 0 {
        return put_word(out, at, word);
    }
    let a = put_byte(out, at, b' ');
    put_word(out, a, word)
}
