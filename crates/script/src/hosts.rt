// What requests are judged by, as lists that are lent: the name and the rules of each server, in their order. Two lists, since reading is lent the names
// alone, in a row.
ghost use Rattle.std.specs.Prelude.{◌≡◌, map, IfOk};
ghost use Rattle.script.specs.Settings.{server_in};
ghost use Rattle.script.specs.Hosts.{names_in, rules_in};

use crate::settings::Server;
use rules::Rule;
use std::alloc::{AllocError, Global};

#[derive(Drop)]
pub struct Hosts<'s> {
    pub names: Vec<&'s [u8]>,
    pub rules: Vec<Vec<Rule<'s>>>,
}

impl<'s> Hosts<'s> {
    // Of these servers.
    pub fn new(heap: Global, servers: &'s [Server]) -> Result<Hosts<'s>, AllocError>
        ensures names { IfOk result (λ hosts. names_in hosts ≡ map (λ s. (server_in s).name) servers.now) }
        ensures rules { IfOk result (λ hosts. rules_in hosts ≡ map (λ s. (server_in s).rules) servers.now) }
    {
        let mut names = Vec::new(heap);
        let mut rules = Vec::new(heap);
        for server in servers {
            names.push(server.name.as_slice())?;
            rules.push(server.lend_rules(heap)?)?;
        }
        Ok(Hosts { names, rules })
    }
}
