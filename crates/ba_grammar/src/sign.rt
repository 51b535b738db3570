//! Signs at the front.
ghost use Rattle.std.specs.Prelude.{◌≡◌};
ghost use Rattle.ba_grammar.specs.Front.{begins, past, skip};
ghost use Rattle.ba_model.specs.Readings.{Sees};

use crate::error::Syntax;
use crate::word::is_sign;
use ba_lex::{Lexeme, Sign};
use ba_model::Failure;

/// A word that may be a sign.
pub trait Signed {
    ghost use Rattle.ba_lex.specs.declared.token.Sign.{Sign as AnySign};
    ghost use Rattle.std.specs.Prelude.{Bool};

    ghost sign_test: { AnySign → Self → Bool };

    fn has_sign(&self, sign: Sign) -> bool
        ensures { result ≡ sign_test sign self.now };
}

impl Signed for Lexeme {
    ghost use Rattle.ba_grammar.specs.Front.{is_sign};

    ghost sign_test = { is_sign };

    fn has_sign(&self, sign: Sign) -> bool {
        is_sign(self, sign)
    }
}

pub fn begins_with_sign<W: Signed>(words: &[W], sign: Sign) -> bool
    ensures { result ≡ begins (W.sign_test sign) words.now }
{
    match words {
        [] => false,
        [first, ..] => first.has_sign(sign),
    }
}

/// The words behind a sign.
pub fn past_sign<W: Signed>(words: &[W], sign: Sign) -> Result<&[W], Failure<Syntax>>
    ensures { Sees (λ rest. rest.now) result (past (W.sign_test sign) words.now) }
{
    match words {
        [first, rest @ ..] if first.has_sign(sign) => Ok(rest),
        _ => Err(Failure::Fault(Syntax)),
    }
}

/// The words without a sign at the front.
pub fn skip_sign<W: Signed>(words: &[W], sign: Sign) -> &[W]
    ensures { result.now ≡ skip (W.sign_test sign) words.now }
{
    match words {
        [first, rest @ ..] if first.has_sign(sign) => rest,
        _ => words,
    }
}
