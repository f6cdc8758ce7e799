//! What `--help` and `--version` show.

/// What `--help` shows.
pub(crate) const HELP: &str = "\
Shows DNS messages, makes queries, lists zone files, and computes the sums of DNSSEC.

usage: dnw message HEX | FILE.. [OPTION..]       shows messages: digits, or files
       dnw query NAME TYPE [CLASS] [OPTION..]    makes a query, as hexadecimal digits
       dnw name NAME..                           shows the wire form of each name
       dnw name --key NAME..                     shows sort keys
       dnw name --reverse ADDRESS..              shows the names of the addresses' PTR records
       dnw name --lines FILE..                   the same for each line of files, as it comes
       dnw name --sort FILE..                    puts names, a line each, in canonical order
       dnw key-tag RECORD..                      computes the key tag of a DNSKEY record
       dnw ds RECORD..                           makes the DS record of a DNSKEY record
       dnw nsec3 NAME ITERATIONS SALT            hashes a name for NSEC3
       dnw zone-digest APEX ALGORITHM FILE       computes the digest of a zone file
       dnw zone FILE.. --origin NAME [OPTION..]  lists the records of zone files, and their errors
       dnw --help, dnw --version                 shows this text, or the version

Options stand anywhere after the command, a value after = or as the next word. None is after the
word --. The FILE - is standard input. What is read is answered as it comes, and not kept.

A message is shown as dig shows it. A file has it as it is, or as hexadecimal digits. A name of a
file that has digits alone begins with ./ here. If one of many is refused, its line says why.
  --lines     many messages, each as a line of hexadecimal digits
  --framed    many messages, each after its length in two octets, as over TCP
  --json      each message as a JSON object in one line (RFC 8427)

A query asks for recursion, in the class IN if none is given.
  --id=NUMBER        the id; without this it cannot be guessed
  --edns             says that responses of 1232 octets are taken
  --dnssec           asks for DNSSEC records, by EDNS
  --option=CODE:HEX  adds an option of EDNS; may be there often
  --tcp              puts the length in front, as over TCP

A zone file is shown as one line a record, with nothing left out. Each error is said on standard
error, as FILE:LINE:COLUMN, with the line and a mark, and no record is shown after the first. Names
without a dot at their end are below the NAME of --origin. $INCLUDE is followed into plain files
below the folder of FILE, and in no text from standard input.
  --include=DIR  $INCLUDE is followed below this folder too; may be there often
  --ttl=SECONDS  the time to live of records for which the file states none
  --generate-limit=NUMBER  how many records a $GENERATE may stand for, which else is an error
  --sort      canonical order: by owner, type and data (RFC 4034, section 6)
  --relative  a zone file, which leaves out what its $ORIGIN, $TTL and the last owner say
  --wire      one line a record: its wire form without compression (RFC 1035, section 4.1.3), in
              hexadecimal digits. After a header that counts them, they are a message (see below).
  --check     what the zone NAME has that the standards forbid or advise against, as FILE:LINE: an
              error, such as a CNAME record beside other data, a name server without an address or
              a record of another zone; or a warning, such as two times to live in a set

Exit status: 0 after an answer, 1 if something that was given is refused or a check finds an error,
2 if the words ask for nothing, 3 if the answer cannot be written. Standard error says why.

Examples: dnw query example.com. MX --dnssec | dnw message -
          dnw message replies.bin --framed --json
          dnw zone /etc/bind/db.local --origin localhost.
          (echo 0000 8400 0000 0001 0000 0000; dnw zone FILE --origin NAME --wire | head -n 1) |
              dnw message -";

/// What `--version` shows: the version of the library.
pub(crate) const VERSION: &str = "dnw 0.1.0";
