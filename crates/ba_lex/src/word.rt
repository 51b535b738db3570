//! Keywords.
ghost use Rattle.std.specs.Prelude.{◌≡◌};
ghost use Rattle.ba_lex.specs.Word.{is_word};

use ba_model::Str;

/// Whether a word is this keyword: the same up to the case of ASCII letters.
#[tactic(auto, unfolding(crate::specs::Word::is_word))]
pub fn is_word(word: &Str, keyword: &str) -> bool
    ensures { result ≡ is_word word.now keyword.now }
{
    word.as_str().eq_ignore_ascii_case(keyword)
}
