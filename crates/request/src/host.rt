// The server that a head asks for: exactly one `host`, and it names one of the servers.
ghost use Rattle.std.specs.Prelude.{◌≡◌, None};
ghost use Rattle.message.specs.Sent.{view_lines};
ghost use Rattle.request.specs.Hosts.{names_of, view_host, server_from, host_among, server_of};

use message::fault::{Fault, Flaw};
use message::sent::Line;
use text::name::eq_ignore_case;

// The one line that is a `host`, if there is one.
fn one_host<'a>(lines: &[Line<'a>]) -> Result<Option<Line<'a>>, Flaw>
    ensures { view_host result ≡ host_among None (view_lines lines.now) }
{
    let mut host: Option<Line<'a>> = None;
    for line in lines {
        if eq_ignore_case(line.field.name, b"host") {
            if host.is_some() {
                return Err(Fault::Host.at(line.at));
            }
            host = Some(*line);
        }
    }
    Ok(host)
}

// Which of the servers has this name, counted from 0.
fn server_named(servers: &[&[u8]], name: &[u8]) -> Option<usize>
    ensures { result ≡ server_from 0 name.now (names_of servers.now) }
{
    servers.iter().position(|s| eq_ignore_case(s, name))
}

// Which server a head asks for, counted from 0; `end`: where its empty line begins.
pub fn find_server(lines: &[Line], servers: &[&[u8]], end: usize) -> Result<usize, Flaw>
    ensures { result ≡ server_of (names_of servers.now) end (view_lines lines.now) }
{
    let line = one_host(lines)?.ok_or(Fault::Host.at(end))?;
    server_named(servers, line.field.value).ok_or(Fault::Host.at(line.value_at))
}
