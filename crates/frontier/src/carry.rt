ghost use Rattle.std.specs.Prelude.{◌≡◌};

/// What an offer to a node carries beside its distance.
pub trait Carry: Copy {
    ghost combined: { Self → Self → Self };

    /// What a node that isn't reached carries; it counts nowhere.
    fn blank() -> Self;

    /// What counts where offers came at one distance: of what an earlier one carries and what a later one does.
    fn combine(self, later: Self) -> Self
        ensures { result ≡ combined self later };
}
