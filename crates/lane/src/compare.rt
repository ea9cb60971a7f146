// How far two components are apart.
ghost use Rattle.std.specs.Prelude.{◌≡◌};
ghost use Rattle.lane.specs.Lane.{apart};

pub fn apart(x: u8, y: u8) -> u8
    ensures { result ≡ apart x y }
{
    x.abs_diff(y)
}
