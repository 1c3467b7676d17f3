// The rules of a server: the first that fits a request decides, and where none does it is denied. Compared are the parts of the canonical path,
// where they lie.
#![tactic(auto)]

ghost use Rattle.std.specs.Prelude.{◌≡◌, ◌==◌};
ghost use Rattle.std.specs.List.{list_all, zip};
ghost use Rattle.text.specs.Bytes.{among, lower};
ghost use Rattle.text.specs.Marks.{split};
ghost use Rattle.rules.specs.Laws.{LaterRule};
ghost use Rattle.rules.specs.Rules.{allows, begins, ends_part, fits, methods_of, parts_in, parts_of, ruled_from, ruling_of, view_rule, view_rules};

#[cfg(test)]
mod tests;

use text::mark::pieces;
use text::name::{eq, lower_byte};
use text::span::span_before;

// What a rule says of the requests that it fits.
#[derive(Clone, Copy, PartialEq, Eq, Debug)]
pub enum Verdict {
    Allow,
    Deny,
}

// A rule as it is written in settings: its verdict, its methods (`-`, or with commas between them), and the first parts of a path (`/`, or each
// after a slash), in lower case.
#[derive(Clone, Copy)]
pub struct Rule<'a> {
    pub verdict: Verdict,
    pub methods: &'a [u8],
    pub path: &'a [u8],
}

// What the rules say of a request, and by which of them, counted from 0. No Option: that no rule fits is a ruling too, and denies.
#[derive(Clone, Copy, PartialEq, Eq, Debug)]
pub enum Ruling {
    Allowed(usize),
    Denied(usize),
    // no rule fits
    Unruled,
}

impl Ruling {
    // Whether the request is let pass.
    pub fn allows(self) -> bool
        ensures { result ≡ allows self }
    {
        matches!(self, Ruling::Allowed(_))
    }
}

// Whether a method stands between the commas of a rule's word; `-` stands for none.
#[tactic(auto, using(crate::proofs::Methods::listed))]
fn lists(methods: &[u8], method: &[u8]) -> bool
    ensures { result ≡ among method.now (methods_of methods.now) }
{
    !eq(methods, b"-") && pieces(methods, b',').any(|word| eq(method, word))
}

// Whether two texts of one length are the same, the first of them in lower case.
fn agree(text: &[u8], word: &[u8]) -> bool
    ensures { result ≡ list_all (λ p. p.1 == lower p.0) (zip text.now word.now) }
{
    text.iter().zip(word).all(|(a, b)| *b == lower_byte(*a))
}

// Whether a part has ended before what follows: nothing, or a slash first.
fn ends_part(rest: &[u8]) -> bool
    ensures { result ≡ ends_part rest.now }
{
    matches!(rest, [] | [b'/', ..])
}

// Whether a path begins with some parts, both without their first slash. A slash is no letter, so the parts are compared as one text: the path
// in lower case begins as they do, and then ends or goes on with a slash.
#[tactic(auto, using(crate::proofs::Parts::begins_cut, crate::proofs::Parts::begins_short))]
fn begins_with(path: &[u8], parts: &[u8]) -> bool
    ensures { result ≡ begins (split 47 parts.now) (split 47 path.now) }
{
    match path.split_at_checked(parts.len()) {
        Some((front, rest)) => agree(front, parts) && ends_part(rest),
        None => false,
    }
}

impl<'a> Rule<'a> {
    // Whether a path begins with the rule's, part by part; `/` has no parts.
    #[tactic(auto, using(crate::proofs::Parts::parts_none, crate::proofs::Parts::parts_some, crate::proofs::Parts::parts_lack))]
    fn covers(self, path: &[u8]) -> bool
        ensures { result ≡ begins (parts_of self.entry.path.now) (parts_of path.now) }
    {
        self.path.len() <= 1 || path.len() > 1 && begins_with(&path[1..], &self.path[1..])
    }

    // Whether the rule fits a request of this method and path.
    fn fits(self, method: &[u8], path: &[u8]) -> bool
        ensures { result ≡ fits (view_rule self.entry) method.now (parts_of path.now) }
    {
        self.covers(path) && lists(self.methods, method)
    }

    // What the rule, the n-th, says of a request that it fits.
    fn ruling(self, n: usize) -> Ruling
        ensures { result ≡ ruling_of n self.entry.verdict }
    {
        match self.verdict {
            Verdict::Allow => Ruling::Allowed(n),
            Verdict::Deny => Ruling::Denied(n),
        }
    }
}

// What the rules say of a request with this method and this canonical target.
#[tactic(auto, using(crate::proofs::Order::rule_fits, crate::proofs::Order::rule_passed, crate::proofs::Order::rules_end))]
pub fn judge(rules: &[Rule], method: &[u8], target: &[u8]) -> Ruling
    ensures { result ≡ ruled_from 0 (view_rules rules.now) method.now (parts_in target.now) }
{
    let path = &target[0..span_before(target, b'?')];
    // the block is left with the ruling of the first rule that fits, and no rule behind it is looked at
    'rules: {
        for (n, rule) in rules.iter().enumerate() {
            if rule.fits(method, path) {
                break 'rules rule.ruling(n);
            }
        }
        Ruling::Unruled
    }
}

// A rule that comes after one that fits the same requests changes no verdict.
#[tactic(auto, using(crate::proofs::Order::later_rule))]
pub fn later_rule()
    ensures { LaterRule }
{}
