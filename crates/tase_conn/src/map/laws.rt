//! What holds of all calls and requests, and of all replies, reports and PDUs.
ghost use Rattle.std.specs.Prelude.{◌≡◌, ℕ, false, Some};
ghost use Rattle.mms_services.specs.declared.pdu.MmsPdu.{MmsPdu};
ghost use Rattle.mms_services.specs.declared.request.Request.{Request};
ghost use Rattle.tase_views.specs.declared.call.CallKind.{CallKind as AnyCall};
ghost use Rattle.tase_views.specs.declared.reply.ReplyKind.{ReplyKind as AnyReply};
ghost use Rattle.mms_services.specs.Lawful.{IsLawfulRequest};
ghost use Rattle.tase_views.specs.Calls.{IsCall};
ghost use Rattle.tase_conn.specs.Map.Asked.{call_of_request, request_in, is_odd};
ghost use Rattle.tase_views.specs.declared.reply.ReportKind.{ReportKind as AnyReport};
ghost use Rattle.tase_conn.specs.Map.Replied.{pdu_of_reply, reply_in, answered_number};
ghost use Rattle.tase_conn.specs.Map.Replied.{pdu_of_report, report_in};

/// What a call asks in MMS is that call again, and a lawful request that is a call of the node is
/// what that call asks.
pub fn calls_are_requests()
    ensures call { (call : AnyCall) → is_odd call ≡ false → IsCall call
        → call_of_request (request_in call) ≡ call }
    ensures request { (request : Request) → is_odd (call_of_request request) ≡ false
        → IsLawfulRequest request → request_in (call_of_request request) ≡ request }
{}

/// What answers by a reply is that reply again and tells the number of the request, and a PDU that
/// is a reply and tells a number is what answers the request with that number by the reply.
pub fn replies_are_pdus()
    ensures reply { (invoke : ℕ) (reply : AnyReply) → reply_in (pdu_of_reply invoke reply)
        ≡ Some reply }
    ensures number { (invoke : ℕ) (reply : AnyReply)
        → answered_number (pdu_of_reply invoke reply) ≡ Some invoke }
    ensures pdu { (pdu : MmsPdu) (invoke : ℕ) (reply : AnyReply) → reply_in pdu ≡ Some reply
        → answered_number pdu ≡ Some invoke → pdu_of_reply invoke reply ≡ pdu }
{}

/// The PDU that a report is is that report again, and a PDU that is a report is what that report is
/// told by.
pub fn reports_are_pdus()
    ensures report { (report : AnyReport) → report_in (pdu_of_report report) ≡ Some report }
    ensures pdu { (pdu : MmsPdu) (report : AnyReport) → report_in pdu ≡ Some report
        → pdu_of_report report ≡ pdu }
{}
