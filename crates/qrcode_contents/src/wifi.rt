//! Texts that join a Wi-Fi network.

ghost use Rattle.std.specs.Prelude.{◌≡◌, [], Some, IfOk, IsOkUnless, string_bytes, codes, if◌then◌else◌};
ghost use Rattle.qrcode_contents.specs.declared.fields.errors.ContentError.TheVariants.{OutOfMemory};
ghost use Rattle.qrcode_contents.specs.fields.Refusals.{Answers, checked};
ghost use Rattle.qrcode_contents.specs.Wifi.{wifi_fields, wifi_refusal, wifi_text, read_wifi, security_name};

use crate::fields::entries::push_texts;
use crate::fields::errors::{Cause, ContentResult, Field};
use crate::fields::refusals::refuse_first;
use std::alloc::Global;

/// The security of a network.
#[derive(Copy, Clone, PartialEq, Eq, Debug)]
pub enum Security {
    /// Open, without a password.
    Open,
    /// WEP.
    Wep,
    /// WPA or WPA2 with a password.
    Wpa,
    /// WPA3 with a password.
    Wpa3,
}

impl Security {
    /// Returns the name in the text, such as `WPA`; `nopass` for an open network.
    pub fn name(self) -> &'static str
        ensures { result.now ≡ security_name self }
    {
        match self {
            Security::Open => "nopass",
            Security::Wep => "WEP",
            Security::Wpa => "WPA",
            Security::Wpa3 => "SAE",
        }
    }
}

// `true`, or an empty text.
fn truth(holds: bool) -> &'static str
    ensures { result.now ≡ (if holds then codes "true" else []) }
{
    if holds { "true" } else { "" }
}

/// A Wi-Fi network. The password is empty if, and only if, the network is open.
#[derive(Copy, Clone, PartialEq, Eq, Debug)]
pub struct Wifi<'a> {
    /// The security.
    pub security: Security,
    /// The name (SSID), 1 to 32 bytes.
    pub ssid: &'a str,
    /// The password.
    pub password: &'a str,
    /// Whether the network hides its name.
    pub hidden: bool,
}

impl Wifi<'_> {
    // Fails on the first wrong field.
    fn check(&self) -> ContentResult<()>
        ensures { result ≡ checked (wifi_refusal (wifi_fields self.now)) }
    {
        let open = self.security == Security::Open;
        refuse_first(&[
            (self.ssid.is_empty(), Field::Ssid, Cause::Empty),
            (self.ssid.len() > 32, Field::Ssid, Cause::TooLong),
            (
                open & !self.password.is_empty(),
                Field::Password,
                Cause::Unused,
            ),
            (
                !open & self.password.is_empty(),
                Field::Password,
                Cause::Empty,
            ),
        ])
    }

    // Writes the text without checking the fields.
    fn written(&self, alloc: Global) -> ContentResult<String>
        ensures value { IfOk result (λ text. string_bytes text ≡ wifi_text (wifi_fields self.now)) }
        ensures memory { IsOkUnless result OutOfMemory }
    {
        let mut text = String::from_str(alloc, "WIFI:")?;
        let texts = [
            ("T", self.security.name()),
            ("S", self.ssid),
            ("P", self.password),
            ("H", truth(self.hidden)),
        ];
        push_texts(&mut text, &texts)?;
        text.push_str(";")?;
        Ok(text)
    }

    /// Returns the text that joins the network.
    ///
    /// Errors: `Refused` names the first wrong field and why; `OutOfMemory` if memory runs out.
    pub fn text(&self, alloc: Global) -> ContentResult<String>
        ensures reads { Answers (wifi_refusal (wifi_fields self.now)) result
            (λ text. read_wifi text ≡ Some (wifi_fields self.now)) }
        ensures value { IfOk result (λ text. string_bytes text ≡ wifi_text (wifi_fields self.now)) }
    {
        self.check()?;
        self.written(alloc)
    }
}
