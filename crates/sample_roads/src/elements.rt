//! Writing the parts of elements.
ghost use Rattle.std.specs.Prelude.{◌≡◌, [], ◌∷◌, ◌++◌, OnOk, codes};
ghost use Rattle.json.specs.Token.{end_array};
ghost use Rattle.spot_terms.specs.Samples.{leaf};
ghost use Rattle.spot_terms.specs.Samples.{exact};
ghost use Rattle.sample_roads.specs.Written.{tokens_of, opening, opening_with_id};

use json::Writer;
use std::alloc::AllocError;

/// Begins an element without attributes.
pub(crate) fn open(out: &mut Writer, name: &str) -> Result<(), AllocError>
    ensures before { out.new.before ≡ out.old.before }
    ensures tokens { OnOk result (out.new.tokens ≡ out.old.tokens ++ opening name.now) }
{
    out.begin_array()?;
    out.string(name)
}

/// Begins an element with an id.
pub(crate) fn open_with_id(out: &mut Writer, name: &str, id: &str) -> Result<(), AllocError>
    ensures before { out.new.before ≡ out.old.before }
    ensures tokens { OnOk result (out.new.tokens ≡ out.old.tokens ++ opening_with_id name.now id.now) }
{
    open(out, name)?;
    out.begin_object()?;
    out.key("id")?;
    out.string(id)?;
    out.end_object()
}

/// Ends an element.
pub(crate) fn close(out: &mut Writer) -> Result<(), AllocError>
    ensures before { out.new.before ≡ out.old.before }
    ensures tokens { OnOk result (out.new.tokens ≡ out.old.tokens ++ end_array ∷ []) }
{
    out.end_array()
}

/// An element with a text.
pub(crate) fn put_leaf(out: &mut Writer, name: &str, text: &str) -> Result<(), AllocError>
    ensures before { out.new.before ≡ out.old.before }
    ensures tokens { OnOk result (out.new.tokens ≡ out.old.tokens ++ tokens_of (leaf name.now text.now)) }
{
    open(out, name)?;
    out.string(text)?;
    close(out)
}

/// An element with an exact value.
pub(crate) fn put_exact(out: &mut Writer, name: &str, text: &str) -> Result<(), AllocError>
    ensures before { out.new.before ≡ out.old.before }
    ensures tokens { OnOk result (out.new.tokens ≡ out.old.tokens ++ tokens_of (exact name.now text.now)) }
{
    open(out, name)?;
    put_leaf(out, "exact", text)?;
    close(out)
}
