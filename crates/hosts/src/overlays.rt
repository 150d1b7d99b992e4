ghost use Rattle.std.specs.Prelude.{◌≡◌};
ghost use Rattle.hosts.specs.Hosts.{overlaid};

use crate::hosts::Host;
use values::keys::{MarkerValueString, MarkerValueVersion};
use values::releases::Release;
use values::texts::Text;

// A host over another, with the release of one key fixed.
#[derive(Clone, Copy)]
pub struct Overlay<'a, H> {
    pub below: &'a H,
    pub key: MarkerValueVersion,
    pub release: Release,
}

impl<H: Host> Host for Overlay<'_, H> {
    ghost means = { λ o. overlaid (H.Host.means o.below.now) o.key o.release };

    fn get_version(&self, key: MarkerValueVersion) -> &Release {
        if key == self.key {
            &self.release
        } else {
            self.below.get_version(key)
        }
    }

    fn get_string(&self, key: MarkerValueString) -> &[u8] {
        self.below.get_string(key)
    }

    fn is_active(&self, name: &Text) -> bool {
        self.below.is_active(name)
    }
}
