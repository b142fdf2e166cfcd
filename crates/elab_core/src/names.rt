//! Names of the core.

ghost use Rattle.std.specs.Prelude.{◌≡◌};
ghost use Rattle.std.specs.List.{prefix_len};
ghost use Rattle.elaboration.specs.Resolving.{plain_name};
ghost use Rattle.elab_core.specs.PlainNames.{is_plain};

use hs_base::Items;

/// How many bytes a name has before its first dot.
fn plain_length(name: &[u8]) -> usize
    ensures { result ≡ prefix_len is_plain name.now }
{
    name.iter().take_while(|byte| **byte != b'.').count()
}

/// A name without the suffix that its unit may have given it.
#[tactic(auto, using(crate::proofs::PlainNames::plain_while))]
pub(crate) fn plain_name(name: Items<u8>) -> Items<u8>
    ensures { result ≡ plain_name name }
{
    let mut bytes = name.into_vec();
    let length = plain_length(&bytes);
    bytes.truncate(length);
    Items::from(bytes)
}
