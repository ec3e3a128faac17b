// A scanner over program text: the text, and the place up to which it is read. What a reader does not read has no value, and where the scanner
// stands then is of no use: who wants to try something else keeps a copy of it.
ghost use Rattle.std.specs.Prelude.{◌≡◌, ◌≤◌, length, drop};
ghost use Rattle.language.specs.Text.{◌≟◌};
ghost use Rattle.language.specs.Tokens.{lex};
ghost use Rattle.language.specs.Grammar.{the_sign, any_name, any_string};
ghost use Rattle.text.specs.Meaning.{part, Within};
ghost use Rattle.tokens.specs.Tokens.{tokens_meant, Placed};
ghost use Rattle.tokens.specs.Readers.{any_sign, nothing_kept, anywhere, read_meant, ReadPlaced, FoundPlaced};

use crate::token::Token;
use text::Span;

#[derive(Clone, Copy)]
pub struct Scanner<'a> {
    pub text: &'a [u8],
    pub at: usize,
    ghost within: { at ≤ length text.now },
}

impl<'a> Scanner<'a> {
    // The next token, up to the end of the line.
    pub fn token(&mut self) -> Token
        ensures text { self.new.text ≡ self.old.text }
        ensures meant { lex (drop self.old.at self.old.text.now) ≡ tokens_meant self.old.text.now result self.new.at }
        ensures placed { Placed self.old.text.now self.old.at result self.new.at }
    {
        let (token, end) = crate::token::token_at(self.text, self.at);
        self.at = end;
        token
    }

    // A keyword or a mark.
    pub fn sign(&mut self) -> Option<Span>
        ensures text { self.new.text ≡ self.old.text }
        ensures meant { read_meant part self.old.text.now result self.new.at ≡ any_sign (lex (drop self.old.at self.old.text.now)) }
        ensures placed { FoundPlaced self.old.text.now self.old.at result self.new.at }
    {
        match self.token() {
            Token::Sign(s) => Some(s),
            _ => None,
        }
    }

    // An identifier.
    pub fn name(&mut self) -> Option<Span>
        ensures text { self.new.text ≡ self.old.text }
        ensures meant { read_meant part self.old.text.now result self.new.at ≡ any_name (lex (drop self.old.at self.old.text.now)) }
        ensures placed { FoundPlaced self.old.text.now self.old.at result self.new.at }
    {
        match self.token() {
            Token::Name(s) => Some(s),
            _ => None,
        }
    }

    // A string.
    pub fn string(&mut self) -> Option<Span>
        ensures text { self.new.text ≡ self.old.text }
        ensures meant { read_meant part self.old.text.now result self.new.at ≡ any_string (lex (drop self.old.at self.old.text.now)) }
        ensures placed { FoundPlaced self.old.text.now self.old.at result self.new.at }
    {
        match self.token() {
            Token::Quoted(s) => Some(s),
            _ => None,
        }
    }

    // Whether what was read at a place is `word`.
    pub fn is(&self, place: Span, word: &[u8]) -> bool
        requires { Within self.now.text.now place }
        ensures { result ≡ (part self.now.text.now place ≟ word.now) }
    {
        text::same_bytes(&self.text[place.start..place.end], word)
    }

    // The keyword or mark `word`.
    pub fn expect(&mut self, word: &[u8]) -> Option<()>
        ensures text { self.new.text ≡ self.old.text }
        ensures meant { read_meant nothing_kept self.old.text.now result self.new.at ≡ the_sign word.now (lex (drop self.old.at self.old.text.now)) }
        ensures placed { ReadPlaced anywhere self.old.text.now self.old.at result self.new.at }
    {
        let sign = self.sign()?;
        if self.is(sign, word) { Some(()) } else { None }
    }
}
