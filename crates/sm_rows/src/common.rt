//! What the rows of every program may name.

// Names and blocks that are read in front of the files of a program: user types of boxes, the channel of three tracks with its live
// manifest and its header, a fragment, and heads of requests and replies.
pub(crate) const COMMON: &str = r#"# Names and blocks that the rows of every program know.

# The user types of the boxes of a time, of times ahead, of a live server manifest, and of how samples are encrypted
let TFXD = hex 6d1d9b05 42d544e6 80e2141d aff757b2
let TFRF = hex d4807ef2 ca394695 8e5426cb 9e46a79f
let LIVE = hex a5d40b30 e81411dd ba2f0800 200c9a66
let SENC = hex a2394f52 5a9b4f14 a2446c42 7c648df4

# A fragment with one sample of one byte and of two seconds
let FRAGMENT seq id time duration byte =
  box moof ( box mfhd ( u32 0 u32 seq ) box traf ( box tfhd ( u32 0 u32 id )
  box trun ( hex 00000f01 u32 1 u32 136 u32 20000000 u32 1 zeros 8 ) box uuid ( $TFXD hex 01000000 u64 time u64 duration ) ) )
  box mdat ( hex byte )

# The three tracks of the channel of most rows
block CHANNEL
track video "video" 350000 10000000 "H264"
private hex 000000016742
numbers 640 360 - - - - -
track video "video" 700000 10000000 "H264"
private hex 000000016742
numbers 1280 720 - - - - -
track audio "audio" 64000 10000000 "AACL"
private hex 1210
numbers - - 255 2 44100 16 4

# The live manifest of these tracks as an encoder writes it, track by track, with the width of the first one, and whole
let SMIL_FRONT =
  "<?xml version=\"1.0\" encoding=\"utf-8\"?>\n"
  "<smil xmlns=\"http://www.w3.org/2001/SMIL20/Language\">\n"
  "  <head>\n"
  "    <meta name=\"creator\" content=\"encoder\" />\n"
  "  </head>\n"
  "  <body>\n"
  "    <switch>\n"
let SMIL_FIRST width =
  "      <video src=\"Streams\" systemBitrate=\"350000\">\n"
  "        <param name=\"trackID\" value=\"1\" valuetype=\"data\" />\n"
  "        <param name=\"FourCC\" value=\"H264\" valuetype=\"data\" />\n"
  "        <param name=\"CodecPrivateData\" value=\"000000016742\" valuetype=\"data\" />\n"
  "        <param name=\"MaxWidth\" value=\"" width "\" valuetype=\"data\" />\n"
  "        <param name=\"MaxHeight\" value=\"360\" valuetype=\"data\" />\n"
  "      </video>\n"
let SMIL_SECOND =
  "      <video src=\"Streams\" systemBitrate=\"700000\">\n"
  "        <param name=\"trackID\" value=\"2\" valuetype=\"data\" />\n"
  "        <param name=\"FourCC\" value=\"H264\" valuetype=\"data\" />\n"
  "        <param name=\"CodecPrivateData\" value=\"000000016742\" valuetype=\"data\" />\n"
  "        <param name=\"MaxWidth\" value=\"1280\" valuetype=\"data\" />\n"
  "        <param name=\"MaxHeight\" value=\"720\" valuetype=\"data\" />\n"
  "      </video>\n"
let SMIL_AUDIO =
  "      <audio src=\"Streams\" systemBitrate=\"64000\">\n"
  "        <param name=\"trackID\" value=\"3\" valuetype=\"data\" />\n"
  "        <param name=\"FourCC\" value=\"AACL\" valuetype=\"data\" />\n"
  "        <param name=\"CodecPrivateData\" value=\"1210\" valuetype=\"data\" />\n"
  "        <param name=\"AudioTag\" value=\"255\" valuetype=\"data\" />\n"
  "        <param name=\"Channels\" value=\"2\" valuetype=\"data\" />\n"
  "        <param name=\"SamplingRate\" value=\"44100\" valuetype=\"data\" />\n"
  "        <param name=\"BitsPerSample\" value=\"16\" valuetype=\"data\" />\n"
  "        <param name=\"PacketSize\" value=\"4\" valuetype=\"data\" />\n"
  "      </audio>\n"
let SMIL_END =
  "    </switch>\n"
  "  </body>\n"
  "</smil>\n"
let LADDER = $SMIL_FRONT $SMIL_FIRST "640" $SMIL_SECOND $SMIL_AUDIO $SMIL_END

# A track of a bare moov with its track_ID, timescale and kind of sample entry, the defaults of a track, and the header of the three tracks
let TRAK id scale entry = box trak ( box tkhd ( u32 7 zeros 8 u32 id zeros 68 ) box mdia ( box mdhd ( zeros 12 u32 scale zeros 8 )
  box minf ( box stbl ( box stsd ( u32 0 u32 1 box entry ( hex 0000000000000001 ) ) ) ) ) )
let TREX id = box trex ( u32 0 u32 id u32 1 zeros 12 )
let FTYP = box ftyp ( "isml" u32 1 "isml" )
let MOOV = box moov ( box mvhd ( zeros 100 ) $TRAK 1 10000000 avc1 $TRAK 2 10000000 avc1 $TRAK 3 10000000 mp4a
  box mvex ( $TREX 1 $TREX 2 $TREX 3 ) )
let HEADER = $FTYP box uuid ( $LIVE zeros 4 $LADDER ) $MOOV

# Heads of requests and of replies
let POST = "POST /live.isml/Streams(a) HTTP/1.1\r\n"
let CHUNKED = $POST "Transfer-Encoding: chunked\r\n\r\n"
let GET target = "GET /live.isml/" target " HTTP/1.1\r\n\r\n"
let REPLY status length = "HTTP/1.1 " status "\r\nContent-Type: text/plain\r\nContent-Length: " length "\r\n\r\n"
let GIVEN kind length = "HTTP/1.1 200 OK\r\nContent-Type: " kind "\r\nContent-Length: " length "\r\n\r\n"
"#;
