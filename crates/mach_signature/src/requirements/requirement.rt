//! A requirement, and its text.

ghost use Rattle.std.specs.Prelude.{◌≡◌, Some, IfOk, IsOk};
ghost use Rattle.std.specs.Fmt.{IsPlainFormatter, WritesOnOk};
ghost use Rattle.mach_signature.specs.Requirements.{expression_at, simple_expression, term_by};
ghost use Rattle.mach_signature.specs.RequirementTexts as defined;

use crate::requirements::term::{
    MOST_DEPTH, Operator, is_joining, operator_of, simple_end, term_at,
};
use crate::requirements::text::{HexText, Quotes, TermText, needs_brackets, operator_words};
use mach_base::{BE, read_u32};
use std::fmt;
use std::fmt::{Display, Formatter, Write};

/// A requirement: a condition on code.
///
/// Its text is that of its expression, as `csreq` writes it, or `not simple: ` and its bytes in hexadecimal digits. A text in it is
/// always between quotation marks, and a value that has to be there is followed by `exists`.
#[derive(Clone, Copy)]
pub struct Requirement<'a> {
    /// The bytes of its blob. The first 8 are its magic and its length.
    pub bytes: &'a [u8],
}

impl<'a> Requirement<'a> {
    /// Returns the requirement that some bytes are, such as those of a file that `csreq` wrote. They aren't looked at.
    pub fn new(bytes: &'a [u8]) -> Requirement<'a>
        ensures { result.bytes.now ≡ bytes.now }
    {
        Requirement { bytes }
    }

    /// Whether it is simple: an expression of known operations, of a depth of 1000 at most, that ends where its bytes end.
    pub fn is_simple(&self) -> bool
        ensures { result ≡ defined.is_simple self.now.bytes.now }
    {
        simple_end(self.bytes).is_ok()
    }

    /// Returns its text, with such quotation marks.
    pub fn text(&self, quotes: Quotes) -> RequirementText<'a>
        ensures { (result.bytes.now ≡ self.now.bytes.now) × (result.quotes ≡ quotes) }
    {
        RequirementText {
            bytes: self.bytes,
            quotes,
        }
    }
}

impl Display for Requirement<'_> {
    ghost output = { λ t. Some (defined.requirement_words t.bytes.now) };

    fn fmt<W: Write>(&self, f: &mut Formatter<W>) -> fmt::Result {
        write_requirement(self.bytes, Quotes::Plain, f)
    }
}

/// The text of a requirement, with quotation marks as they are or as a string of JSON has them.
#[derive(Clone, Copy)]
pub struct RequirementText<'a> {
    bytes: &'a [u8],
    quotes: Quotes,
}

impl Display for RequirementText<'_> {
    ghost output = { λ t. Some (defined.requirement_text t.quotes t.bytes.now) };

    fn fmt<W: Write>(&self, f: &mut Formatter<W>) -> fmt::Result {
        write_requirement(self.bytes, self.quotes, f)
    }
}

// Writes a requirement: its expression if it is simple, and else its bytes.
fn write_requirement<W: Write>(bytes: &[u8], quotes: Quotes, f: &mut Formatter<W>) -> fmt::Result
    ensures { WritesOnOk W.write_str_gives f.old result (defined.requirement_text quotes bytes.now) f.new }
{
    match simple_end(bytes) {
        Ok(_) => write_simple(bytes, quotes, f),
        Err(_) => {
            let digits = HexText(bytes);
            write!(f, "not simple: {digits}")
        }
    }
}

// Writes the expression of a whole requirement that is simple.
fn write_simple<W: Write>(bytes: &[u8], quotes: Quotes, f: &mut Formatter<W>) -> fmt::Result
    ensures { IsPlainFormatter f.old → IsOk result → defined.WroteSimple W.write_str_gives quotes (simple_expression bytes.now) f.old f.new }
{
    write_at(bytes, quotes, MOST_DEPTH, Some(Operator::Or), 12, f)?;
    Ok(())
}

// Writes the expression at a place in the operator around it, if it is simple and has at most this depth. Returns the place after it.
fn write_at<W: Write>(
    bytes: &[u8],
    quotes: Quotes,
    depth: usize,
    around: Option<Operator>,
    place: usize,
    f: &mut Formatter<W>,
) -> Result<usize, fmt::Error>
    ensures { IfOk result (λ end. IsPlainFormatter f.old
        → defined.WroteExpression W.write_str_gives quotes around (expression_at depth bytes.now place) end f.old f.new) }
{
    let Some(depth) = depth.checked_sub(1) else {
        return Ok(place);
    };
    let Ok(code) = read_u32(bytes, place, BE) else {
        return Ok(place);
    };
    let operands = place + 4;
    if is_joining(code) {
        let operator = operator_of(code);
        let brackets = needs_brackets(around, operator);
        f.write_str(opening(brackets))?;
        let middle = write_at(bytes, quotes, depth, Some(operator), operands, f)?;
        f.write_str(operator_words(operator))?;
        let end = write_at(bytes, quotes, depth, Some(operator), middle, f)?;
        f.write_str(closing(brackets))?;
        return Ok(end);
    }
    if code == 9 {
        f.write_str("! ")?;
        return write_at(bytes, quotes, depth, None, operands, f);
    }
    write_term(bytes, quotes, code, operands, f)
}

// The bracket before joined operands, if there is one.
fn opening(brackets: bool) -> &'static str
    ensures { result.now ≡ defined.opening brackets }
{
    if brackets { "(" } else { "" }
}

// The bracket after joined operands, if there is one.
fn closing(brackets: bool) -> &'static str
    ensures { result.now ≡ defined.closing brackets }
{
    if brackets { ")" } else { "" }
}

// Writes a condition, if it is simple. Returns the place after it.
fn write_term<W: Write>(
    bytes: &[u8],
    quotes: Quotes,
    code: u32,
    place: usize,
    f: &mut Formatter<W>,
) -> Result<usize, fmt::Error>
    ensures { IfOk result (λ end. IsPlainFormatter f.old
        → defined.WroteTerm W.write_str_gives quotes (term_by bytes.now code place) end f.old f.new) }
{
    let Ok((term, end)) = term_at(bytes, code, place) else {
        return Ok(place);
    };
    let text = TermText { quotes, term };
    write!(f, "{text}")?;
    Ok(end)
}
