// The worked figures of the margin rules.
ghost use Rattle.std.specs.Prelude.{◌≡◌};
ghost use Rattle.margin.specs.Figures.{Figures, worked_margins};

// The eight figures, in hao. Each is what the definitions give.
pub fn figures_hold() -> [u64; 8]
    ensures derived { Figures }
    ensures answered { result ≡ worked_margins }
{
    [
        33_000_000, 31_000_000, 1_300, 1_200, 5_000_000, 36_000_000, 58_400_000, 1_400,
    ]
}
