ghost use Rattle.std.specs.Prelude.{◌≡◌};
ghost use Rattle.dn_message.specs.Header.{number_of_rcode, rcode_of_number};

/// The code of a reply (RFC 1035 4.1.1, RFC 2136 2.2).
#[derive(Clone, Copy, Debug, PartialEq, Eq)]
pub enum Rcode {
    NoError,
    FormErr,
    ServFail,
    NxDomain,
    NotImp,
    Refused,
    YxDomain,
    YxRrset,
    NxRrset,
    NotAuth,
    NotZone,
}

impl Rcode {
    /// The code's number in a header, from 0 to 10.
    pub fn number(self) -> u8
        ensures { result ≡ number_of_rcode self }
    {
        match self {
            Rcode::NoError => 0,
            Rcode::FormErr => 1,
            Rcode::ServFail => 2,
            Rcode::NxDomain => 3,
            Rcode::NotImp => 4,
            Rcode::Refused => 5,
            Rcode::YxDomain => 6,
            Rcode::YxRrset => 7,
            Rcode::NxRrset => 8,
            Rcode::NotAuth => 9,
            Rcode::NotZone => 10,
        }
    }

    /// The code of a number in a header; none above 10.
    pub fn of_number(number: u8) -> Option<Rcode>
        ensures { result ≡ rcode_of_number number }
    {
        match number {
            0 => Some(Rcode::NoError),
            1 => Some(Rcode::FormErr),
            2 => Some(Rcode::ServFail),
            3 => Some(Rcode::NxDomain),
            4 => Some(Rcode::NotImp),
            5 => Some(Rcode::Refused),
            6 => Some(Rcode::YxDomain),
            7 => Some(Rcode::YxRrset),
            8 => Some(Rcode::NxRrset),
            9 => Some(Rcode::NotAuth),
            10 => Some(Rcode::NotZone),
            _ => None,
        }
    }
}
