//! The fields of a payload, as the options give them.

ghost use Rattle.std.specs.Prelude.{◌≡◌, IfOk};
ghost use Rattle.goqlanis_options.specs.Texts.{texts_in};

use crate::options::fields::option_of;
use clap::ArgMatches;
use goqlanis_files::failure::Failure;
use goqlanis_files::refused;
use qrcode_contents::fields::errors::Field;
use qrcode_payloads::given::FieldSource;
use qrcode_payloads::kinds::Kind;
use std::alloc::Global;

/// The parsed options, as the source of a payload's fields. An absent option is an empty field.
#[derive(Clone, Copy)]
pub struct Fields<'m, 'a> {
    /// The kind of payload.
    pub kind: Kind,
    given: &'m ArgMatches<'a>,
}

impl FieldSource for Fields<'_, '_> {
    ghost fields = { λ options. texts_in options.given.now };

    fn text(&self, field: Field) -> &str {
        match self.given.get_str(option_of(field).long) {
            Some(text) => text,
            None => "",
        }
    }
}

/// Options whose absence changes what a payload means: an open network, an open amount, or another
/// kind of one-time password.
pub const DECISIVE: &[&str] = &["password", "amount", "counter", "period"];

/// Words for an open network, which has no password.
pub const OPEN: &[&str] = &["open", "nopass", "none"];

impl<'m, 'a> Fields<'m, 'a> {
    /// Returns the fields that the options give. No option may be empty whose absence changes what
    /// the payload means.
    ///
    /// Errors: `Refused` if one is; `OutOfMemory`.
    pub(crate) fn of(
        alloc: Global,
        kind: Kind,
        given: &'m ArgMatches<'a>,
    ) -> Result<Fields<'m, 'a>, Failure>
        ensures { IfOk result (λ fields. fields.given.now ≡ given.entry.now) }
    {
        for name in DECISIVE {
            if given.get_str(name) == Some("") {
                return refused!(alloc;
                    "--{name}: it is empty, e.g. from a variable that is not set; leave it out \
                    for none"
                );
            }
        }
        Ok(Fields { kind, given })
    }
}
