// Wirings: docs/SPECIFICATION.md, 'Words'. Here stands the test of a wiring; specs/Wiring.antt has what a wiring makes of
// points and of masks.
#![tactic(auto)]

ghost use Rattle.std.specs.Prelude.{◌≡◌};
ghost use Rattle.cube.specs.NumberLists.{lists};
ghost use Rattle.wiring.specs.Wiring.{is_wiring};

// Whether the wiring names the tap `t`.
fn has_tap(wiring: &[u8], t: usize) -> bool
    ensures { result ≡ lists wiring.now t }
{
    wiring.iter().any(|entry| *entry as usize == t)
}

// Whether the wiring has `n` entries, and each of the taps 1 to `n` among them: then it names each once.
pub fn is_wiring(wiring: &[u8], n: usize) -> bool
    ensures { result ≡ is_wiring n wiring.now }
{
    wiring.len() == n && (0..n).all(|k| has_tap(wiring, k + 1))
}
