// Settings: servers and their rules, with words of their own. They grow by a server or by a rule of the last one; each step is tested
// before anything is copied, so that a refusal leaves all as it was.
ghost use Rattle.std.specs.Prelude.{◌≡◌, true, [], length, map, IfOk, MatchResult};
ghost use Rattle.script.specs.Settings.{Took, rule_text, rule_in, server_in, servers_in, server_with, named, with_server, with_rule};
ghost use Rattle.script.specs.declared.problem.Problem.TheVariants.{Memory};

use crate::problem::Problem;
use rules::{Rule, Verdict};
use std::alloc::{AllocError, Global};
use text::name::eq_ignore_case;

// A rule with words of its own, spelled as in the script: what a `Rule` lends, as a path's buffer stands to a path.
#[derive(Drop)]
pub struct OwnedRule {
    pub verdict: Verdict,
    pub methods: Vec<u8>,
    pub path: Vec<u8>,
}

#[derive(Drop)]
pub struct Server {
    pub name: Vec<u8>,
    pub rules: Vec<OwnedRule>,
}

#[derive(Drop)]
pub struct Settings {
    pub servers: Vec<Server>,
}

impl OwnedRule {
    // A copy with words of its own. By hand, since memory may be wanting, and is asked for here.
    fn copy(heap: Global, rule: Rule<'_>) -> Result<OwnedRule, Problem>
        ensures { MatchResult result (λ o. rule_in o ≡ rule_text rule.entry) (λ p. p ≡ Memory) }
    {
        let methods = Vec::from_slice(heap, rule.methods)?;
        let path = Vec::from_slice(heap, rule.path)?;
        Ok(OwnedRule {
            verdict: rule.verdict,
            methods,
            path,
        })
    }

    // The rule, with its words lent.
    pub fn as_rule(&self) -> Rule<'_>
        ensures { rule_text result ≡ rule_in self.now }
    {
        Rule {
            verdict: self.verdict,
            methods: &self.methods,
            path: &self.path,
        }
    }
}

impl Server {
    fn new(heap: Global, name: &[u8]) -> Result<Server, Problem>
        ensures { MatchResult result (λ s. ((server_in s).name ≡ name.now) × ((server_in s).rules ≡ [])) (λ p. p ≡ Memory) }
    {
        let name = Vec::from_slice(heap, name)?;
        Ok(Server {
            name,
            rules: Vec::new(heap),
        })
    }

    fn add_rule(&mut self, rule: Rule<'_>) -> Result<(), Problem>
        ensures { Took true (server_in self.old) (server_with (rule_text rule.entry) (server_in self.old)) (server_in self.new) result }
    {
        if self.rules.len() >= 64 {
            return Err(Problem::TooManyRules);
        }
        let rule = OwnedRule::copy(*self.rules.allocator(), rule)?;
        self.rules.push(rule)?;
        Ok(())
    }

    // The rules, with their words lent.
    pub(crate) fn lend_rules(&self, heap: Global) -> Result<Vec<Rule<'_>>, AllocError>
        ensures { IfOk result (λ rules. map rule_text rules.items ≡ (server_in self.now).rules) }
    {
        let mut rules = Vec::new(heap);
        for rule in &self.rules {
            rules.push(rule.as_rule())?;
        }
        Ok(rules)
    }
}

impl Settings {
    pub(crate) fn new(heap: Global) -> Settings
        ensures { servers_in result ≡ [] }
    {
        Settings {
            servers: Vec::new(heap),
        }
    }

    // How many servers are declared; they are numbered from 1 on.
    pub(crate) fn server_count(&self) -> usize
        ensures { result ≡ length (servers_in self.now) }
    {
        self.servers.len()
    }

    // Whether a server has this name, but for case.
    fn declares(&self, name: &[u8]) -> bool
        ensures { result ≡ named name.now (servers_in self.now) }
    {
        self.servers
            .iter()
            .any(|server| eq_ignore_case(&server.name, name))
    }

    // Adds a server with no rules.
    pub(crate) fn add_server(&mut self, name: &[u8]) -> Result<(), Problem>
        ensures { Took true (servers_in self.old) (with_server name.now (servers_in self.old)) (servers_in self.new) result }
    {
        if self.servers.len() >= 8 {
            return Err(Problem::TooManyServers);
        }
        if self.declares(name) {
            return Err(Problem::ServerTwice);
        }
        let server = Server::new(*self.servers.allocator(), name)?;
        self.servers.push(server)?;
        Ok(())
    }

    // Adds a rule to the last server.
    #[tactic(auto, using(crate::proofs::Adding::no_server, crate::proofs::Adding::took_last))]
    pub(crate) fn add_rule(&mut self, rule: Rule<'_>) -> Result<(), Problem>
        ensures { Took true (servers_in self.old) (with_rule (rule_text rule.entry) (servers_in self.old)) (servers_in self.new) result }
    {
        match self.servers.last_mut() {
            None => Err(Problem::RuleWithoutServer),
            Some(server) => server.add_rule(rule),
        }
    }
}
