// Fields that concern one connection only, and so are not sent on: nine by their names, and those that a `connection` field names.
ghost use Rattle.std.specs.Prelude.{◌≡◌, ◌≤◌, length, take};
ghost use Rattle.message.specs.Hops.{hop_by_hop, token_in, named_by, is_dropped, kept_of, held_all};
ghost use Rattle.message.specs.SentViews.{view_sent_fields};

use crate::sent::Line;
use crate::sent_field::SentField;
use text::mark::pieces;
use text::name::eq_ignore_case;
use text::value::trim;

// The names of fields that are never sent on.
const HOP_BY_HOP: [&[u8]; 9] = [
    b"content-length",
    b"transfer-encoding",
    b"connection",
    b"keep-alive",
    b"te",
    b"trailer",
    b"upgrade",
    b"expect",
    b"proxy-connection",
];

// Whether fields of this name are never sent on.
fn is_hop_by_hop(name: &[u8]) -> bool
    ensures { result ≡ hop_by_hop name.now }
{
    HOP_BY_HOP.iter().any(|known| eq_ignore_case(name, known))
}

// Whether a name stands between the commas of a list.
fn lists(list: &[u8], name: &[u8]) -> bool
    ensures { result ≡ token_in name.now list.now }
{
    pieces(list, b',').any(|token| eq_ignore_case(trim(token), name))
}

// Whether a `connection` field names this one.
fn is_named(lines: &[Line], name: &[u8]) -> bool
    ensures { result ≡ named_by name.now (held_all lines.now) }
{
    lines.iter().any(|line| eq_ignore_case(line.field.name, b"connection")
        && lists(line.field.value, name))
}

// Whether a field of this name is not sent on. `host` always is.
fn is_dropped(lines: &[Line], name: &[u8]) -> bool
    ensures { result ≡ is_dropped (held_all lines.now) name.now }
{
    is_hop_by_hop(name) || (!eq_ignore_case(name, b"host") && is_named(lines, name))
}

// The fields of a head that are sent on, in order, as many as the table has room for.
pub fn keep<'t, 'a>(lines: &[Line<'a>], table: &'t mut [SentField<'a>]) -> &'t [SentField<'a>]
    ensures front { view_sent_fields result.now ≡ take (length table.old) (kept_of (held_all lines.now)) }
    ensures all { length lines.now ≤ length table.old → view_sent_fields result.now ≡ kept_of (held_all lines.now) }
{
    let sent_on = lines
        .iter()
        .filter(|line| !is_dropped(lines, line.field.name));
    // the table is lent, as all memory is here: so many of its places are filled, by index, since what is written through `iter_mut` is not known
    // once the loan has ended
    let mut count: usize = 0;
    for line in sent_on.take(table.len()) {
        table[count] = line.field;
        count += 1;
    }
    let fields = &table[..];
    &fields[..count]
}
