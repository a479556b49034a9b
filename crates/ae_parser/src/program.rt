// Whole programs, and the place of a refusal.
ghost use Rattle.std.specs.Prelude.{◌≡◌, ◌≤◌, length, IfOk, IfErr, MatchResult};
ghost use Rattle.ae_text.specs.Tokens.{IsWhole};
ghost use Rattle.ae_tree.specs.Plain.{Code};
ghost use Rattle.ae_tree.specs.Names.{names_of, numbered};
ghost use Rattle.ae_tree.specs.Shown.{code};
ghost use Rattle.ae_tree.specs.Grammar.{Derives};
ghost use Rattle.ae_tree.specs.Limits.{Within};
ghost use Rattle.ae_tree.specs.Refused.{IsRefused, IsTokenDenied};
ghost use Rattle.ae_parser.specs.Reading.{Refuses, PlacedFailure, rule_of};

use crate::declarations::{Parts, read_all_declarations};
use crate::numbers::{Numbered, number_names};
use crate::places::placed;
use ae_reading::{Fail, Why};
use ae_text::{Deny, Refusal, Rule, Token};
use ae_tree::{Limit, Program};
use std::alloc::Global;

fn program(alloc: Global, tokens: &[Token]) -> Result<Program, Fail>
    requires whole { IsWhole tokens.now }
    requires short { length tokens.now ≤ 1048577 }
    ensures ok { IfOk result (λ p. Derives tokens.now (code p)) }
    ensures within { IfOk result (λ p. Within (code p)) }
    ensures only { (p : Code) → Derives tokens.now p → Within p
        → MatchResult result (λ q. code q ≡ p) (λ e. e ≡ Fail.Memory) }
    ensures fails { IfErr result (PlacedFailure (numbered (names_of tokens.now) tokens.now)) }
{
    let Numbered { names, lexemes } = number_names(alloc, tokens)?;
    let Parts {
        classes,
        methods,
        decls,
    } = match read_all_declarations(alloc, lexemes.as_slice()) {
        Ok(parts) => parts,
        Err(fail) => return Err(placed(lexemes.as_slice(), fail)),
    };
    Ok(Program {
        names,
        classes,
        methods,
        decls,
    })
}

fn rule_over(limit: Limit) -> Rule
    ensures { result ≡ rule_of (Why.Over limit) }
{
    match limit {
        Limit::Statements => Rule::BlockTooLong,
        Limit::Levels => Rule::TooDeep,
        Limit::Depth => Rule::TooDeep,
        Limit::Params => Rule::TooManyParams,
    }
}

fn broken_rule(why: Why) -> Rule
    ensures { result ≡ rule_of why }
{
    match why {
        Why::Unexpected => Rule::Unexpected,
        Why::Over(limit) => rule_over(limit),
    }
}

/// The refusal of the token from which on this many are left.
fn refusal(tokens: &[Token], why: Why, left: usize) -> Refusal
    requires whole { IsWhole tokens.now }
    requires refused { Refuses (numbered (names_of tokens.now) tokens.now) why left }
    ensures { IsRefused tokens.now result.rule result.at }
{
    let refused = &tokens[tokens.len() - left];
    Refusal {
        rule: broken_rule(why),
        at: refused.at,
    }
}

fn deny(tokens: &[Token], fail: Fail) -> Deny
    requires whole { IsWhole tokens.now }
    requires placed { PlacedFailure (numbered (names_of tokens.now) tokens.now) fail }
    ensures denied { IsTokenDenied tokens.now result }
    ensures memory { fail ≡ Fail.Memory → result ≡ Deny.Memory }
{
    match fail {
        Fail::Refused(why, left) => Deny::Refused(refusal(tokens, why, left)),
        Fail::Memory => Deny::Memory,
    }
}

/// Reads the program that the tokens of a source stand for.
///
/// A source that is no program within the limits is refused at the first token with which no
/// such program goes on: as `Unexpected` where no program of any size does, and else for the
/// limit that each is over. A block that is too deep is refused at its `{`, and a parameter too many
/// at its first token, though what stands before them already leads there. Where a right side becomes an
/// expression only behind its 257th token that counts, that one is refused.
pub fn parse(alloc: Global, tokens: &[Token]) -> Result<Program, Deny>
    requires whole { IsWhole tokens.now }
    requires short { length tokens.now ≤ 1048577 }
    ensures ok { IfOk result (λ p. Derives tokens.now (code p)) }
    ensures within { IfOk result (λ p. Within (code p)) }
    ensures only { (p : Code) → Derives tokens.now p → Within p
        → MatchResult result (λ q. code q ≡ p) (λ e. e ≡ Deny.Memory) }
    ensures refused { IfErr result (IsTokenDenied tokens.now) }
{
    match program(alloc, tokens) {
        Ok(program) => Ok(program),
        Err(fail) => Err(deny(tokens, fail)),
    }
}
