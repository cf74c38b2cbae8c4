#![tactic(auto)]
// The preset number: as many bits as number the presets.
ghost use Rattle.std.specs.Prelude.{◌≡◌};
ghost use Rattle.refusal.specs.Answer.{answered};
ghost use Rattle.bits.specs.Bits.{read_bits};
ghost use Rattle.coded_numbers.specs.Exponent.{exponent as exponent_of};
ghost use Rattle.coeff_preset.specs.Preset.{preset_of};

use bits::BitPlace;
use refusal::Refusal;

#[tactic(auto, using(crate::specs::laws::PresetLaws::preset_end, crate::specs::laws::PresetLaws::preset_below))]
pub fn read_preset(bytes: &[u8], presets: u32) -> Result<u32, Refusal>
    ensures { answered result ≡ preset_of presets (read_bits bytes.now 0 (exponent_of presets)) }
{
    let n = coded_numbers::exponent(presets);
    let Ok((v, _)) = bits::read_bits(bytes, BitPlace::start(), n) else {
        return Err(Refusal::BitsEnd(0));
    };
    if presets <= v {
        return Err(Refusal::Preset(n as usize));
    }
    Ok(v)
}
