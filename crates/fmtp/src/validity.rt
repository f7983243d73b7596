// Which values are settings, and which of these may be written.
ghost use Rattle.std.specs.Prelude.{◌≡◌};
ghost use Rattle.fmtp.specs.Settings.{is_rate, are_rates};

use super::Settings;

#[tactic(auto, unfolding(crate::specs::Settings::is_rate))]
fn is_rate(rate: u16) -> bool
    ensures { result ≡ is_rate rate }
{
    matches!(rate, 2400 | 1200 | 600)
}

// Whether these are one to three different rates, unused places 0.
#[tactic(auto, using(crate::proofs::SettingsLaws::unused), unfolding(crate::specs::Settings::are_rates))]
pub(crate) fn are_rates(first: u16, second: u16, third: u16) -> bool
    ensures { result ≡ are_rates first second third }
{
    if !is_rate(first) {
        return false;
    }
    if second == 0 {
        return third == 0;
    }
    is_rate(second)
        && second != first
        && (third == 0 || is_rate(third) && third != first && third != second)
}

impl Settings {
    ghost use Rattle.fmtp.specs.Settings.{is_settings};
    ghost use Rattle.fmtp.specs.Answers.{may_be_written};

    #[tactic(auto, unfolding(crate::specs::Settings::is_settings, crate::specs::Settings::is_tcmax))]
    fn is_settings(self) -> bool
        ensures { result ≡ is_settings self }
    {
        are_rates(self.first, self.second, self.third) && (1..=255).contains(&self.tcmax)
    }

    // Whether the writer takes these settings.
    #[tactic(auto, unfolding(crate::specs::Answers::may_be_written))]
    pub(crate) fn may_be_written(self) -> bool
        ensures { result ≡ may_be_written self }
    {
        self.is_settings()
    }
}
