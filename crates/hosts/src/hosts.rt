ghost use Rattle.std.specs.Prelude.{◌≡◌};
ghost use Rattle.values.specs.Texts.{text_bytes};
ghost use Rattle.hosts.specs.Hosts.{Meaning, text_of};

use values::keys::{MarkerValueString, MarkerValueVersion};
use values::releases::Release;
use values::texts::Text;

// Who answers what a marker asks. No question changes the host, and each is answered alike every time.
pub trait Host {
    ghost means: { Self → Meaning };

    // The release of a key.
    fn get_version(&self, key: MarkerValueVersion) -> &Release
        ensures { result.now ≡ (means self.now).release key };

    // The text of a key; an old spelling has the text of its modern name.
    fn get_string(&self, key: MarkerValueString) -> &[u8]
        ensures { result.now ≡ text_of (means self.now) key };

    // Whether the extra of a name is active.
    fn is_active(&self, name: &Text) -> bool
        ensures { result ≡ (means self.now).active (text_bytes name.now) };
}
