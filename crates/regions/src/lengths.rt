// What stores ask about a table of lengths.
ghost use Rattle.std.specs.Prelude.{◌≡◌};
ghost use Rattle.regions.specs.Model.{within};

// Whether no length is above `most`.
pub fn none_above(lens: &[usize], most: usize) -> bool
    ensures { result ≡ within most lens.now }
{
    lens.iter().all(|l| *l <= most)
}
