// The words of a command line: those that every program knows, and the options of `desk check`.
ghost use Rattle.std.specs.Prelude.{◌≡◌, true, ◌↔◌, ◌⊎◌, eqb, get_or};
ghost use Rattle.text.specs.Bytes.{bytes};
ghost use Rattle.intake.specs.Options.{OptionIs};

use check::same;
use checks::Asked;
use rules::Rule;

// Whether a word asks for help.
pub fn is_help(word: &[u8]) -> bool
    ensures { (result ≡ true) ↔ ((word.now ≡ bytes "-h") ⊎ (word.now ≡ bytes "--help")) }
{
    if same(word, b"-h") {
        return true;
    }
    same(word, b"--help")
}

// Whether a word is an option: it begins with a hyphen, byte 45.
pub fn is_option(word: &[u8]) -> bool
    ensures { result ≡ eqb (get_or word.now 0 0) 45 }
{
    if word.len() == 0 {
        return false;
    }
    word[0] == b'-'
}

// Reads an option of `desk check` after those that were read.
pub fn option(asked: Asked, word: &[u8]) -> Option<Asked>
    ensures { OptionIs asked word.now result }
{
    let rule = asked.rule;
    if same(word, b"--refused") {
        if asked.refused {
            return None;
        }
        return Some(Asked {
            rule,
            refused: true,
        });
    }
    if !same(word, b"--old") {
        return None;
    }
    match rule {
        Rule::New => Some(Asked {
            rule: Rule::Old,
            refused: asked.refused,
        }),
        Rule::Old => None,
    }
}
