//! How the commands are used.
ghost use Rattle.std.specs.Prelude.{◌≡◌};
ghost use Rattle.sm_words.specs.Helps.{help_of, usage_of, version};

use crate::topic::Topic;

/// Which version this is.
pub fn version_text() -> &'static str
    ensures { result.now ≡ version }
{
    "smooth 0.1.0\n"
}

/// How the words of a command stand, as a line.
pub fn usage_text(topic: Topic) -> &'static str
    ensures { result.now ≡ usage_of topic }
{
    match topic {
        Topic::All =>
            "usage: smooth COMMAND [WORDS], and one of\n    serve list push play relay standby pick export rehearse help version\n",
        Topic::Serve =>
            "usage: smooth serve STORE --port N [--bind ADDRESS] [--ladder] [--journal FILE] [--turns N] [--players N]\n",
        Topic::List => "usage: smooth list STORE\n",
        Topic::Push => "usage: smooth push HOST PORT PATH ID < PUSH\n",
        Topic::Play =>
            "usage: smooth play HOST PORT PATH STREAM... [--from N] [--count N] [--tries N] [--refresh N]\n",
        Topic::Relay =>
            "usage: smooth relay HOST PORT PATH STORE [--rounds N] [--tries N] [--journal FILE] < LADDER\n",
        Topic::Standby =>
            "usage: smooth standby HOST PORT PATH STORE [--rounds N] [--tries N] [--journal FILE] < LADDER\n",
        Topic::Pick => "usage: smooth pick TRACK TIME < PUSH > FRAGMENT\n",
        Topic::Export => "usage: smooth export STORE NAME BITRATE < HEADER > FILE\n",
        Topic::Rehearse => "usage: smooth rehearse NUMBER SIZE\n",
    }
}

/// What a command is for, its options with their ranges, and an example.
pub fn help_text(topic: Topic) -> &'static str
    ensures { result.now ≡ help_of topic }
{
    match topic {
        Topic::All => ALL,
        Topic::Serve => SERVE,
        Topic::List => LIST,
        Topic::Push => PUSH,
        Topic::Play => PLAY,
        Topic::Relay => RELAY,
        Topic::Standby => STANDBY,
        Topic::Pick => PICK,
        Topic::Export => EXPORT,
        Topic::Rehearse => REHEARSE,
    }
}

const ALL: &str = "smooth: a live origin and a client for Smooth Streaming

  smooth serve STORE --port N    serves an event to encoders and players
  smooth list STORE              lists what a store keeps
  smooth push HOST PORT PATH ID  sends a push to an origin
  smooth play HOST PORT PATH STREAM...
                                 plays streams of an origin into files
  smooth relay HOST PORT PATH STORE
                                 pulls what an origin lists into a store
  smooth standby HOST PORT PATH STORE
                                 rebuilds the store of an origin, to take over
  smooth pick TRACK TIME         takes one fragment out of a push
  smooth export STORE NAME BITRATE
                                 writes one quality of a store as a file
  smooth rehearse NUMBER SIZE    runs an origin and its clients in memory
  smooth help COMMAND            says more of a command
  smooth version                 says which version this is

An option is written --name N or --name=N. Behind -- no word is an option.
";

const SERVE: &str =
    "usage: smooth serve STORE --port N [--bind ADDRESS] [--ladder] [--journal FILE] [--turns N] [--players N]

Serves the event in the folder STORE, which is made where it isn't there. Encoders push to
/NAME.isml/Streams(ID), and players ask for /NAME.isml/Manifest.

  --port N        the port, 1 to 65535; with --players to 65534
  --bind ADDRESS  listens at this IPv4 or IPv6 address alone; default all of the machine
  --ladder        reads the tracks of the event from the input and declares them first
  --journal FILE  appends a line for each connection, request and push to FILE
  --turns N       ends after N events, 1 to 9223372036854775807; default the most
  --players N     answers players by N threads, 1 to 16, at the port behind; default none

  smooth serve /var/lib/smooth/store --port 8080
";

const LIST: &str = "usage: smooth list STORE

Lists the fragments that the store in the folder STORE keeps, in the order in which they came:
keep PLACE NAME BITRATE TIME DURATION SAMPLES.

  smooth list /var/lib/smooth/store
";

const PUSH: &str = "usage: smooth push HOST PORT PATH ID < PUSH

Sends the input, at most 268435456 bytes, as one POST to /PATH.isml/Streams(ID), and prints the reply.

  PORT            1 to 65535

  smooth push localhost 8080 live demo < push.isml
";

const PLAY: &str =
    "usage: smooth play HOST PORT PATH STREAM... [--from N] [--count N] [--tries N] [--refresh N]

Plays 1 to 16 streams of /PATH.isml one after another, and appends the first to track-0.frag, the
second to track-1.frag, and so on.

  PORT            1 to 65535
  --from N        the first start, in ticks, 0 to 9223372036854775807; default the first that is listed
  --count N       how many fragments of each stream, 1 to 1000000; default 1000000
  --tries N       how often each is asked for, 1 to 16; default 3
  --refresh N     how many manifests are read for one start, 1 to 10000; default 3

  smooth play localhost 8080 live video audio --count 10
";

const RELAY: &str =
    "usage: smooth relay HOST PORT PATH STORE [--rounds N] [--tries N] [--journal FILE] < LADDER

Pulls what the origin at HOST and PORT lists of /PATH.isml into the store in the folder STORE, which is
made where it isn't there. The ladder in the input, at most 1048576 bytes, is the tracks that are pulled;
it is declared where the store has none. What is kept is served by serve.

  PORT            1 to 65535
  --rounds N      how often the manifest is read, 1 to 1000000; default 1000000
  --tries N       how often each thing is asked for, 1 to 16; default 3
  --journal FILE  appends a line for each round and each failed request to FILE

  smooth relay origin.example.com 8080 live /var/lib/smooth/edge < ladder.xml
";

const STANDBY: &str =
    "usage: smooth standby HOST PORT PATH STORE [--rounds N] [--tries N] [--journal FILE] < LADDER

Follows the primary at HOST and PORT: rebuilds its store of /PATH.isml, fragment by fragment in its order,
in the folder STORE, which is made where it isn't there. The ladder in the input, at most 1048576 bytes,
is that of the primary. Where the primary is gone, serve takes over from the store.

  PORT            1 to 65535
  --rounds N      how often the manifest is read, 1 to 1000000; default 1000000
  --tries N       how often each thing is asked for, 1 to 16; default 3
  --journal FILE  appends a line for each round and each failed request to FILE

  smooth standby primary.example.com 8080 live /var/lib/smooth/store < ladder.xml
";

const PICK: &str = "usage: smooth pick TRACK TIME < PUSH > FRAGMENT

Reads the body of a push, at most 268435456 bytes, and writes its first fragment with that track_ID
and start, as an origin would serve it.

  TRACK           1 to 4294967295
  TIME            in ticks, 0 to 9223372036854775807

  smooth pick 1 0 < push.isml > first.frag
";

const EXPORT: &str = "usage: smooth export STORE NAME BITRATE < HEADER > FILE

Writes the pushed header of the input, at most 268435456 bytes, and behind it each fragment that the
store keeps of that stream and bitrate, in the order of time: a fragmented MP4 file.

  BITRATE         0 to 4294967295

  smooth export store video 400000 < push.isml > video.mp4
";

const REHEARSE: &str = "usage: smooth rehearse NUMBER SIZE

Runs an origin, two encoders and three clients in memory, over a disk that crashes and a network that
loses and cuts replies, and prints what came of it in numbers.

  NUMBER          which world, 0 to 2147483647
  SIZE            rounds of pushes, 0 to 2000

  smooth rehearse 7 200
";
