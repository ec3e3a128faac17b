// The lines of a program text in a row: comments are passed over, and `***` ends them.
#![tactic(auto)]

ghost use Rattle.std.specs.Prelude.{◌≡◌, ◌≤◌, length};
ghost use Rattle.language.specs.Programs.{is_comment};
ghost use Rattle.program_lines.specs.Lines.{written_from, line_meant, LinePlaced, step_meant, StepPlaced};

use text::Alphabet;

// Whether a line is a comment from column 1.
fn is_comment(line: &[u8]) -> bool
    ensures { result ≡ is_comment line.now }
{
    line.starts_with(b"//") && text::run_end(line, 2, Alphabet::Comment) == line.len()
}

// The line that starts at a place: a comment, `***` with a right end after it, or tokens, and where the next line starts.
#[derive(Clone, Copy)]
pub enum Line {
    Comment(usize),
    Stars,
    Tokens(usize),
    Broken,
}

fn line_at(text: &[u8], at: usize) -> Line
    requires { at ≤ length text.now }
    ensures meant { written_from text.now at ≡ line_meant text.now at result }
    ensures placed { LinePlaced text.now at result }
{
    let end = text::until(text, at, b'\n');
    if text::same_bytes(&text[at..end], b"***") {
        if text.len() - end <= 1 {
            return Line::Stars;
        }
        return Line::Broken;
    }
    if end == text.len() {
        return Line::Broken;
    }
    let next = end + 1;
    if is_comment(&text[at..end]) {
        return Line::Comment(next);
    }
    Line::Tokens(next)
}

// Past comments: the place of a line with tokens and that of the line after it, or how the text ends.
#[derive(Clone, Copy)]
pub enum Step {
    Tokens(usize, usize),
    Stars,
    Broken,
}

pub fn next_line(text: &[u8], at: usize) -> Step
    requires { at ≤ length text.now }
    ensures meant { written_from text.now at ≡ step_meant text.now result }
    ensures placed { StepPlaced text.now at result }
{
    let mut p = at;
    loop {
        match line_at(text, p) {
            Line::Comment(n) => p = n,
            Line::Stars => return Step::Stars,
            Line::Tokens(n) => return Step::Tokens(p, n),
            Line::Broken => return Step::Broken,
        }
    }
}
