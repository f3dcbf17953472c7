// The settings that every session has: document 01's margin, and the bytes that it gives for a slot.
#![tactic(auto)]

ghost use Rattle.std.specs.Prelude.{◌≡◌};
ghost use Rattle.settings.specs.Usual.{usual};

use rules::settings::Settings;

pub fn usual() -> Settings
    ensures { result ≡ usual }
{
    Settings {
        margin: 300,
        carries: 54,
    }
}
