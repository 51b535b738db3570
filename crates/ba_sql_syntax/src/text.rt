//! The whole text of a query.
ghost use Rattle.std.specs.Prelude.{◌≡◌, IfOk};
ghost use Rattle.ba_model.specs.Readings.{Gives, Sees};
ghost use Rattle.ba_sql_syntax.specs.Reader.{selects_at, text_of, union_step};
ghost use Rattle.ba_sql_syntax.specs.Terminals.{terminals};
ghost use Rattle.ba_sql_syntax.specs.Written.{HaveTrees, or_syntax, written_of};

use crate::fault::SyntaxFault;
use crate::front::{begins_with, past, skip};
use crate::scan::scan;
use crate::select::select;
use crate::word::{Key, Terminal, terminals};
use crate::written::{QueryText, Select};
use ba_grammar::{Syntax, skip_sign};
use ba_lex::{Lexeme, Sign};
use ba_model::{Failure, List};
use std::alloc::Global;

/// One more select, behind UNION.
#[tactic(auto, unfolding(crate::specs::Reader::union_step))]
fn one_more(
    alloc: Global,
    mut found: List<Select>,
    words: &[Terminal],
) -> Result<(List<Select>, &[Terminal]), Failure<Syntax>>
    ensures { Sees (λ x. (x.0, x.1.now)) result (union_step (found, words.now)) }
{
    let rest = past(words, Key::Union)?;
    let (next, rest) = select(alloc, skip(rest, Key::Distinct))?;
    found.push(next)?;
    Ok((found, rest))
}

/// Selects with UNION between them.
#[tactic(auto, unfolding(crate::specs::Reader::selects_at))]
fn selects(
    alloc: Global,
    words: &[Terminal],
) -> Result<(List<Select>, &[Terminal]), Failure<Syntax>>
    ensures { Sees (λ x. (x.0, x.1.now)) result (selects_at words.now) }
{
    let (first, behind) = select(alloc, words)?;
    let mut found = List::new(alloc);
    found.push(first)?;
    let mut rest = behind;
    for _ in 0..words.len() {
        if !begins_with(rest, Key::Union) {
            return Ok((found, rest));
        }
        let (more, behind) = one_more(alloc, found, rest)?;
        found = more;
        rest = behind;
    }
    Ok((found, rest))
}

#[tactic(auto, unfolding(crate::specs::Reader::text_of))]
fn text(alloc: Global, words: &[Terminal]) -> Result<QueryText, Failure<Syntax>>
    ensures { Gives result (text_of words.now) }
{
    let (selects, rest) = selects(alloc, words)?;
    if !skip_sign(rest, Sign::Semicolon).is_empty() {
        return Err(Failure::Fault(Syntax));
    }
    Ok(QueryText { selects })
}

fn written(alloc: Global, words: &[Lexeme]) -> Result<QueryText, Failure<SyntaxFault>>
    ensures { Gives result (or_syntax (text_of (terminals words.now))) }
{
    let words = terminals(alloc, words)?;
    text(alloc, words.as_slice()).map_err(Failure::widen)
}

#[tactic(auto, unfolding(crate::specs::Written::written_of))]
fn scanned(alloc: Global, words: &[Lexeme]) -> Result<QueryText, Failure<SyntaxFault>>
    ensures { Gives result (written_of words.now) }
{
    let called = scan(alloc, words)?;
    match called {
        Some(called) => Err(Failure::Fault(SyntaxFault::Unsupported(called))),
        None => written(alloc, words),
    }
}

/// The written form of a query from its words.
///
/// First the words are scanned from the left: the first that isn't supported is told as
/// `Unsupported`, a word in upper case and a sign as itself. These are the words ALL NOT NULL IS
/// LIKE BETWEEN EXISTS GROUP HAVING ORDER LIMIT OFFSET LEFT RIGHT FULL OUTER NATURAL USING CASE WITH
/// INSERT UPDATE DELETE INTERSECT EXCEPT in any case, but for those of IS NULL and IS NOT NULL, the
/// signs `+`, `-`, `/` and `%`, a SELECT directly behind `(`, and a word that isn't reserved
/// directly before `(`. Then all words together must spell a query of the grammar, else they are
/// `Syntax`:
///
/// ```text
/// query  = select { UNION [DISTINCT] select } [";"]
/// select = SELECT [DISTINCT] heads FROM source { "," source | CROSS JOIN source
///          | [INNER] JOIN source ON cond } [ WHERE cond ]
/// heads  = "*" | item { "," item }      item = name "." "*" | operand [ [AS] name ]
/// source = name [ [AS] name ]
/// cond   = conj { OR conj }             conj = prim { AND prim }
/// prim   = "(" cond ")" | operand cmp operand | operand IN "(" constant { "," constant } ")"
///          | operand IS [NOT] NULL
/// operand = [ name "." ] name | constant
/// constant = Number | Text | Param | TRUE | FALSE
/// cmp    = "=" | "<>" | "!=" | "<" | "<=" | ">" | ">="
/// ```
///
/// This is a part of the queries of the SQL standard. TRUE is 1 and FALSE is 0, `a > b` is read as
/// `b < a`, `a >= b` as `b <= a`, and `!=` as `<>`. A name is a word that isn't reserved, or a quoted
/// name. Names of heads are dropped. `NoMemory` leaves nothing behind.
pub fn read_written(alloc: Global, words: &[Lexeme]) -> Result<QueryText, Failure<SyntaxFault>>
    ensures exact { Gives result (written_of words.now) }
    // Each select's condition is empty, or a tree in postfix order.
    ensures trees { IfOk result HaveTrees }
{
    scanned(alloc, words)
}
