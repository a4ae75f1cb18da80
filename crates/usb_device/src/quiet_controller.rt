//! A controller on whose bus nothing happens: the clauses of `Controller` can be met.

ghost use Rattle.std.specs.Prelude.{◌≡◌, []};
ghost use Rattle.usb_device.specs.Bus.{Bus, is_pending, mode_of, out_mode_of};
ghost use Rattle.usb_device.specs.representation.Link.{met_view};
ghost use Rattle.usb_device.specs.representation.Played0.{address_by};

use crate::controller::{Controller, Input, Output, Waiting};

/// A controller on whose bus nothing happens.
pub struct QuietController {
    input: Input,
    output: Output,
    met: Waiting,
    address: u8,
}

impl QuietController {
    fn is_pending(&self) -> bool
        ensures { result ≡ is_pending (met_view self.now.met) }
    {
        self.met.reset || self.met.setup.is_some()
    }
}

impl Controller for QuietController {
    ghost bus = { λ c. record { seen = []; input = mode_of c.input; output = out_mode_of c.output; met = met_view c.met } };

    ghost address_of = { λ c. address_by c.met.reset c.address };

    #[tactic(auto, using(crate::proofs::Playing0::address_looked))]
    fn waiting(&mut self) -> Waiting {
        if self.met.reset {
            self.address = 0;
        }
        let nothing = Waiting {
            reset: false,
            setup: None,
            out: None,
            taken: false,
        };
        std::mem::replace(&mut self.met, nothing)
    }

    #[tactic(auto, using(crate::proofs::Playing0::address_stays))]
    fn input_0(&mut self, answer: Input) {
        if !self.is_pending() {
            self.input = answer;
        }
    }

    #[tactic(auto, using(crate::proofs::Playing0::address_stays))]
    fn output_0(&mut self, answer: Output) {
        if !self.is_pending() {
            self.output = answer;
        }
    }

    #[tactic(auto, using(crate::proofs::Playing0::address_reported))]
    fn set_address(&mut self, address: u8) {
        self.address = address;
    }
}
