// A plant with its weights, as the calls that weigh its machines are handed it.

ghost use Rattle.std.specs.Prelude.{◌≡◌, length};
ghost use Rattle.livelock.specs.Figures.{figures_of};
ghost use Rattle.decoding.specs.Tables.{plant_of};
ghost use Rattle.edges.specs.Edges.{Light};
ghost use Rattle.figures.specs.FigureSums.{figures_in};
ghost use Rattle.machines.specs.OneProof.{figures_prop};

use decoding::Decoded;
use figures::Figures;

// A decoded plant, a weight for each of its types, none above 1,000, and the figures F, n, G and n × w of both.
#[derive(Clone, Copy)]
pub struct Weighted<'a> {
    pub decoded: Decoded<'a>,
    pub weights: &'a [u16],
    pub figures: Figures,
    pub ghost one_each: { length weights.now ≡ decoded.shape.types },
    pub ghost light: { Light weights.now },
    pub ghost figures_are: { figures_in figures ≡ figures_of (plant_of decoded.shape decoded.table.now) weights.now } by { figures_prop (figures_in figures) (figures_of (plant_of decoded.shape decoded.table.now) weights.now) },
}

impl<'a> Weighted<'a> {
    // With the figures, which are made here.
    pub fn new(decoded: Decoded<'a>, weights: &'a [u16]) -> Weighted<'a>
        requires { (length weights.now ≡ decoded.shape.types) × Light weights.now }
        ensures decoded { result.decoded ≡ decoded.entry }
        ensures weights { result.weights.now ≡ weights.now }
    {
        Weighted {
            decoded,
            weights,
            figures: figures::figures_of(decoded.states(), weights),
        }
    }
}
