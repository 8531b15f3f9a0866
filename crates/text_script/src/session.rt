// The chip between two lines, and what the lines do to it.
ghost use Rattle.std.specs.Prelude.{◌≡◌, false, length, replicate};
ghost use Rattle.rules.specs.declared.Phase.TheVariants.{Silent};
ghost use Rattle.rules.specs.declared.Task.TheVariants.{Idle};
ghost use Rattle.rules.specs.Chip.{Memory, blank_byte};
ghost use Rattle.rules.specs.Lines.{row_bytes};
ghost use Rattle.rules.specs.Options.{fresh_options};
ghost use Rattle.rules.specs.StandIn.{rest, power_on};
ghost use Rattle.chip_finder.specs.LentFlashes.{memory};
ghost use Rattle.standin.specs.Shows.{shows};
ghost use Rattle.text_script.specs.Chips.{stored_in, refused_call, on_after, powered};

use rules::{Chip, Flash, Options, Phase, Refusal, Task};
use standin::call::Device;
use standin_state::resting::at_rest;
use text_read::rows;

// stays: no Option, since the record is there with the power off too, and its options are kept.
// Its record, and whether its power is on. With the power off the record is Silent; its options are those stored.
#[derive(Clone, Copy)]
pub struct Session {
    pub on: bool,
    pub device: Device,
}

// A fresh chip, its power off.
pub fn fresh(chip: Chip, code: &mut [u8], data: &mut [u8]) -> Session
    ensures on_value { (result.on ≡ false) × (result.device.chip ≡ chip) × ((m : Memory) → shows result.device m ≡ rest Silent Idle fresh_options m) }
    ensures code_after { code.new ≡ replicate (length code.old) blank_byte }
    ensures data_after { «data».new ≡ replicate (length «data».old) blank_byte }
{
    octets::fill(code, 0xFF);
    octets::fill(data, 0xFF);
    Session {
        on: false,
        device: standin::call::off(chip),
    }
}

// These options stored; the power goes off.
#[tactic(auto, unfolding(rules::specs::StandIn::received))]
pub fn off(s: Session, o: Options) -> Session
    ensures { (result.on ≡ false) × (result.device.chip ≡ s.device.chip) × ((m : Memory) → shows result.device m ≡ rest Silent Idle o m) }
{
    let mut d = s.device;
    let core = at_rest(Phase::Silent, Task::Idle, o);
    d.core = core;
    Session {
        on: false,
        device: d,
    }
}

// The session after a power-on, and what that answered.
#[derive(Clone, Copy)]
pub struct Powered {
    pub session: Session,
    pub call: Result<usize, Refusal>,
}

// Power-on, with options and flash as they stand; refused, all stands.
pub fn power_on(s: Session, code: &[u8], data: &[u8]) -> Powered
    ensures chip_value { (result.session.device.chip ≡ s.device.chip) × (result.session.on ≡ on_after result.call s.on) }
    ensures call_value { powered (shows result.session.device (memory code.now «data».now)) result.call ≡ power_on s.device.chip (shows s.device (memory code.now «data».now)) s.device.core.options (memory code.now «data».now) }
{
    let d = s.device;
    let c = d.core;
    let o = c.options;
    let answered = standin::call::power_on(d, o, code, data);
    let call = answered.call;
    let after = answered.device;
    Powered {
        session: Session {
            on: call.is_ok() || s.on,
            device: after,
        },
        call,
    }
}

// The bytes of a row stored in one flash from `at`, if they all lie in it.
#[tactic(auto, using(crate::proofs::Says::stored_code, crate::proofs::Says::stored_data))]
pub fn store(f: Flash, at: usize, row: &[u8], code: &mut [u8], data: &mut [u8])
    ensures { memory code.new «data».new ≡ stored_in f at (row_bytes row.now) (memory code.old «data».old) }
{
    match f {
        Flash::Code => {
            rows::store(code, at, row);
        }
        Flash::Data => {
            rows::store(data, at, row);
        }
    }
}
