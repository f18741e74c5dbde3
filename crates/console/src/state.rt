// A console's state, and what it answers.
ghost use Rattle.std.specs.Prelude.{◌≡◌};
ghost use Rattle.console.specs.Console.{beginning, asked, at_endpoint, started, ended, gets, silent};

// How the data connections will be made: it is not settled, the peer opens them, or they are opened to the peer.
#[derive(Clone, Copy, Debug, PartialEq, Eq)]
pub enum Endpoint {
    None,
    Listening,
    Connecting,
}

#[derive(Clone, Copy, Debug, PartialEq, Eq)]
pub struct Console {
    // Extended block mode was asked for: MODE E.
    pub extended: bool,
    pub endpoint: Endpoint,
    // A transfer is running.
    pub running: bool,
}

#[derive(Clone, Copy, Debug, PartialEq, Eq)]
pub struct Answer {
    // The console from now on.
    pub console: Console,
    // The code, where there is one.
    pub code: Option<u16>,
    // The word SUSPECT goes with it.
    pub suspect: bool,
}

// Mode E not asked for, no endpoint, no transfer running.
pub fn beginning() -> Console
    ensures { result ≡ beginning }
{
    Console {
        extended: false,
        endpoint: Endpoint::None,
        running: false,
    }
}

impl Console {
    // Mode E asked for.
    pub(crate) fn asked(self) -> Console
        ensures { result ≡ asked self }
    {
        Console {
            extended: true,
            ..self
        }
    }

    // Another endpoint in place of the one before.
    pub(crate) fn at_endpoint(self, endpoint: Endpoint) -> Console
        ensures { result ≡ at_endpoint self endpoint }
    {
        Console { endpoint, ..self }
    }

    // A transfer running.
    pub(crate) fn started(self) -> Console
        ensures { result ≡ started self }
    {
        Console {
            running: true,
            ..self
        }
    }

    // The transfer is over, and its endpoint with it.
    pub(crate) fn ended(self) -> Console
        ensures { result ≡ ended self }
    {
        Console {
            endpoint: Endpoint::None,
            running: false,
            ..self
        }
    }

    // An answer with a code and without the word.
    pub fn gets(self, code: u16) -> Answer
        ensures { result ≡ gets self code }
    {
        Answer {
            console: self,
            code: Some(code),
            suspect: false,
        }
    }

    // An answer without a code.
    pub(crate) fn silent(self) -> Answer
        ensures { result ≡ silent self }
    {
        Answer {
            console: self,
            code: None,
            suspect: false,
        }
    }
}
