// The first line of a request, which all of these readers read alike.
ghost use Rattle.std.specs.Prelude.{◌≡◌};
ghost use Rattle.reader.specs.Strict.{read_ask};
ghost use Rattle.forgiving.specs.Held.{view_ask};

use crate::word::Word;
use text::mark::cut;
use text::name::eq;

// The method and the target; none where the line is not a first line.
pub(crate) fn read_ask(line: &[u8]) -> Option<(&[u8], &[u8])>
    ensures { view_ask result ≡ read_ask line.now }
{
    let (method, rest) = cut(line, b' ')?;
    let (target, version) = cut(rest, b' ')?;
    if Word::Method.is(method) && Word::Target.is(target) && eq(version, b"HTTP/1.1") {
        Some((method, target))
    } else {
        None
    }
}
