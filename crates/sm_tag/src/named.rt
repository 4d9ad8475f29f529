//! Attributes by their names.
ghost use Rattle.std.specs.Prelude.{◌≡◌, option_map};
ghost use Rattle.sm_tag.specs.Elements.{attribute_of};

use sm_model::Attribute;

/// The value of the first attribute of that name.
pub fn attribute_of<'a>(name: &[u8], attributes: &'a [Attribute]) -> Option<&'a [u8]>
    ensures { option_map (λ x. x.now) result ≡ attribute_of name.now attributes.now }
{
    for attribute in attributes {
        if attribute.name.as_slice() == name {
            return Some(attribute.value.as_slice());
        }
    }
    None
}
