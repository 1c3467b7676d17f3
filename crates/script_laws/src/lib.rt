// The grammar of a script's line, as texts joined together: a line is read as saying something exactly where the grammar says so. And why the rules that a
// script sets are good: settings grow by such lines alone, so that each rule of theirs is written as rules are to be.
#![tactic(auto)]

ghost use Rattle.std.specs.Prelude.{◌≡◌, map, IfOk};
ghost use Rattle.std.specs.Result.{MatchResult};
ghost use Rattle.script.specs.Hosts.{names_in, rules_in};
ghost use Rattle.script.specs.Scripts.{script_in};
ghost use Rattle.script.specs.Statements.{Says, said_by};
ghost use Rattle.script_laws.specs.Good.{HostsGood, PathRead, ReadScript, RuleRead, RulesGood, ScriptGood, StaysGood, WellWritten};
ghost use Rattle.script_laws.specs.Grammar.{LineSays, ReadIffSays};

use script::hosts::Hosts;
use script::problem::Problem;
use script::progress::Script;
use script::read::read_statement;
use script::statement::Statement;
use std::alloc::{AllocError, Global};

// What a line says, by the grammar; a problem exactly where the grammar has no such line. A rule's path is written as settings write it.
#[tactic(auto, using(crate::proofs::Lines::read_so, crate::proofs::Good::well_written))]
pub fn read(line: &[u8]) -> Result<Statement<'_>, Problem>
    ensures says { MatchResult result (λ s. LineSays line.now (said_by s)) (λ _. (s : Says) → LineSays line.now s → ⊥) }
    ensures written { IfOk result WellWritten }
{
    read_statement(line)
}

// A script before its first line.
pub fn start(heap: Global) -> Script
    ensures { ReadScript (script_in result) }
{
    Script::new(heap)
}

// Reads one more line of a script that was read so far, which then is such a script again.
pub fn read_line<'a>(script: &mut Script, line: &'a [u8]) -> Result<Statement<'a>, Problem>
    ensures { ReadScript (script_in script.old) → ReadScript (script_in script.new) }
{
    script.read_line(line)
}

// The names and the rules of a script's servers. Of a script that was read the rules are good.
pub fn lend_hosts<'s>(heap: Global, script: &'s Script) -> Result<Hosts<'s>, AllocError>
    ensures names { IfOk result (λ hosts. names_in hosts ≡ map (λ s. s.name) (script_in script.now).servers) }
    ensures rules { IfOk result (λ hosts. rules_in hosts ≡ map (λ s. s.rules) (script_in script.now).servers) }
    ensures promised { IfOk result (λ hosts. ReadScript (script_in script.now) → RulesGood hosts) }
{
    Hosts::new(heap, &script.settings().servers)
}

// A line is read as saying something exactly where the grammar says so.
#[tactic(auto, using(crate::proofs::Lines::read_iff_says))]
pub fn read_iff_says()
    ensures { ReadIffSays }
{}

// A path of the grammar is written as settings write it.
#[tactic(auto, using(crate::proofs::Good::path_read))]
pub fn path_read()
    ensures { PathRead }
{}

// A rule that a line says is good.
#[tactic(auto, using(crate::proofs::Good::rule_read))]
pub fn rule_read()
    ensures { RuleRead }
{}

// A line that is taken leaves good settings good.
#[tactic(auto, using(crate::proofs::Good::stays_good))]
pub fn stays_good()
    ensures { StaysGood }
{}

// Whatever lines were read, the rules in the settings are good.
#[tactic(auto, using(crate::proofs::Good::script_good))]
pub fn script_good()
    ensures { ScriptGood }
{}

// So are those of hosts that are made of these settings.
#[tactic(auto, using(crate::proofs::Good::hosts_good))]
pub fn hosts_good()
    ensures { HostsGood }
{}

#[cfg(test)]
mod tests;
