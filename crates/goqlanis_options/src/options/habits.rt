//! Names that users of other programs, or of older versions, may type.

use super::Purpose;
use qrcode_payloads::kinds::Kind;

/// Hidden aliases of options: short and long names.
#[rattlefmt::skip]
pub static OTHER_NAMES: &[(&str, &str)] = &[
    ("r", "input"), ("read-from", "input"),
    ("t", "format"), ("type", "format"), ("filetype", "format"),
    ("error", "level"), ("ecc", "level"), ("ecl", "level"), ("error-correction", "level"),
    ("correction", "level"),
    ("symversion", "symbol-version"), ("vers", "symbol-version"),
    ("least-version", "min-version"), ("greatest-version", "max-version"),
    ("m", "quiet-zone"), ("margin", "quiet-zone"), ("border", "quiet-zone"),
    ("padding", "quiet-zone"), ("outfile", "output"),
    ("density", "dpi"), ("resolution", "dpi"),
    ("color", "dark"), ("colour", "dark"), ("foreground", "dark"), ("fg", "dark"),
    ("fgcolor", "dark"), ("background", "light"), ("bg", "light"), ("bgcolor", "light"),
    ("p", "mask"), ("pattern", "mask"),
    ("org", "organisation"), ("company", "organisation"), ("role", "title"), ("title", "summary"),
    ("title", "subject"), ("name", "summary"), ("name", "ssid"), ("auth", "security"),
    ("encryption", "security"), ("key", "password"),
    ("last-name", "family"), ("surname", "family"), ("first-name", "given"),
    ("last_name", "family"), ("last name", "family"), ("first_name", "given"),
    ("first name", "given"), ("full name", "name"), ("full_name", "name"),
    ("organization", "organisation"), ("e-mail", "email"), ("mail", "email"),
    ("tel", "phone"), ("telephone", "phone"), ("number", "phone"), ("cell", "mobile"),
    ("zip", "code"), ("postcode", "code"), ("postal-code", "code"), ("house-number", "number"),
    ("start", "begin"), ("date", "begin"), ("until", "end"), ("where", "location"),
    ("place", "location"), ("psk", "password"), ("pass", "password"),
    ("passphrase", "password"), ("firstname", "given"), ("lastname", "family"),
    ("remittance", "message"), ("recipient", "email"),
    ("to", "email"), ("body", "message"), ("text", "message"), ("lat", "latitude"),
    ("lon", "longitude"), ("vpa", "payee"), ("key", "payee"), ("remark", "note"),
    ("txid", "reference"), ("label", "account"), ("key", "secret"),
];

/// Whether an alias of an option counts in tasks of this purpose. A number may be that of a house,
/// and what something goes to may be an address, so in contacts they mean nothing.
pub fn counts(alias: &str, purpose: Purpose) -> bool {
    match (alias, purpose) {
        ("number", Purpose::Content(kind)) => matches!(kind, Kind::Tel | Kind::Sms),
        ("to" | "recipient", Purpose::Content(kind)) => kind == Kind::Mail,
        _ => true,
    }
}
