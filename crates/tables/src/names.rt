// Names as records.
ghost use Rattle.std.specs.Prelude.{◌≡◌};
ghost use Rattle.rules.specs.Names.{is_main, name_below};
ghost use Rattle.rules.specs.Layout.{read_name};
ghost use Rattle.tables.specs.Laid.{LaidName};

use primitives::names::{is_main, name_below};
use records::text::Name;

pub fn name_is_below(a: Name, b: Name) -> bool
    requires laid_name { LaidName a }
    requires laid_name_2 { LaidName b }
    ensures { result ≡ name_below (read_name a) (read_name b) }
{
    name_below(&a.bytes[..a.len], &b.bytes[..b.len])
}

pub fn is_main_name(a: Name) -> bool
    requires { LaidName a }
    ensures { result ≡ is_main (read_name a) }
{
    is_main(&a.bytes[..a.len])
}
